//! The groups of a mesh as a reply tells them. Contracts see the list as a list; it is made from a `Vec` and lent without
//! taking memory.

ghost use Rattle.std.specs.Prelude.{◌≡◌};

use outside::Name;
use std::marker::Model;

/// A group's name, and how many triangles are in it.
#[derive(Debug, Drop)]
pub struct GroupCount {
    pub name: Name,
    pub count: u32,
}

/// Groups with their counts. Contracts see it as their list.
#[derive(Debug, Drop)]
pub struct GroupList {
    items: Vec<GroupCount>,
}

impl Model for GroupList {
    ghost use Rattle.std.specs.Prelude.{List};
    ghost use Rattle.query_script.specs.declared.groups.GroupCount.{GroupCount};

    ghost Value = { List GroupCount };

    ghost view = { λ groups. groups.items.items };
}

impl GroupList {
    /// The list of these groups.
    pub fn new(items: Vec<GroupCount>) -> GroupList
        ensures { result ≡ items.items }
    {
        GroupList { items }
    }

    /// Lends the groups.
    pub fn items(&self) -> &[GroupCount]
        ensures { result.now ≡ self.now }
    {
        self.items.as_slice()
    }
}
