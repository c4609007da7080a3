//! The work of the last box query. It is counted over the tree when it is asked, or before boxes or tree change.

use fixed_box::Box3;

/// Its count, or the box whose work is still to be counted.
#[derive(Clone, Copy, Drop)]
pub enum LastWork {
    Counted(u64),
    Uncounted(Box3),
}
