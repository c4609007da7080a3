//! Lists of words, and the plans that they make.

use crate::{Build, Input, Plan, WordsFault, read_words};
use std::process::Abort;
use std::test::Fail;

/// Accepted lists with `grid`: the number of squares, the workers and the build.
const GRIDS: [(&str, u32, u32, Build); 7] = [
    ("--grid 512", 512, 4, Build::Karras),
    ("--grid=2", 2, 4, Build::Karras),
    ("--grid 000064 --workers 7", 64, 7, Build::Karras),
    ("--workers=1 --grid 64", 64, 1, Build::Karras),
    ("--build karras --grid 3", 3, 4, Build::Karras),
    (
        "--build=karras --workers 64 --grid=511",
        511,
        64,
        Build::Karras,
    ),
    ("--grid 2 --build apetrei", 2, 4, Build::Apetrei),
];

/// Accepted lists, with one space between two words: the place of the MESH word, the workers, the unit and the build.
const ACCEPTED: [(&str, u32, u32, u32, Build); 12] = [
    ("a.obj", 0, 4, 64, Build::Karras),
    ("--unit=1 a.obj", 1, 4, 1, Build::Karras),
    ("a.obj --workers 64", 0, 64, 64, Build::Karras),
    ("--workers 64 a.obj", 2, 64, 64, Build::Karras),
    ("a.obj --unit 65536 --workers=1", 0, 1, 65536, Build::Karras),
    ("a.obj --build karras", 0, 4, 64, Build::Karras),
    (
        "--build=karras --unit 000007 --workers 000064 a.obj",
        5,
        64,
        7,
        Build::Karras,
    ),
    ("--workers 5 5", 2, 5, 64, Build::Karras),
    ("a=b", 0, 4, 64, Build::Karras),
    ("workers --workers 2", 0, 2, 64, Build::Karras),
    (
        "a.obj --workers 64 --build apetrei",
        0,
        64,
        64,
        Build::Apetrei,
    ),
    ("--build=apetrei a.obj", 1, 4, 64, Build::Apetrei),
];

/// Refused lists. Two spaces, or one at an end, stand for a word that is empty.
const REFUSED: [&str; 60] = [
    "",
    " ",
    "a.obj ",
    "a.obj b.obj",
    "a.obj --workers 0",
    "a.obj --workers 65",
    "a.obj --workers 2 --workers 2",
    "a.obj --workers=2 --workers 2",
    "a.obj --workers",
    "--workers a.obj",
    "--workers 2",
    "a.obj --workers -2",
    "a.obj --workers=-2",
    "a.obj --workers ",
    "a.obj --workers=",
    "a.obj --workers 0000064",
    "a.obj --workers 2.",
    "a.obj --workers 2=2",
    "a.obj --workers=2=2",
    "a.obj --Workers 2",
    "a.obj --worker 2",
    "a.obj -workers 2",
    "a.obj -w 2",
    "--grid 1",
    "--grid 513",
    "--grid 0000512",
    "--grid +2",
    "--grid=",
    "--grid",
    "--grid a.obj",
    "--grid 2 --grid 2",
    "--grid 2 a.obj",
    "a.obj --grid=2",
    "--grid 2 --unit 1",
    "--grid 2 --unit=64",
    "--grid 2 --build apetre",
    "--unit 1",
    "--",
    "-- a.obj",
    "a.obj --",
    "a.obj --workers -- 2",
    "a.obj --build fast",
    "a.obj --build Karras",
    "a.obj --build --workers 2",
    "a.obj --build apetrei --build karras",
    "a.obj --unit +1",
    "a.obj --unit 0",
    "a.obj --unit 65537",
    "a.obj --unit=",
    "a.obj --unitx=1",
    "a.obj --=1",
    "--help",
    "--version",
    "-h",
    "-V",
    "a.obj -",
    "-",
    "a.obj --work=2",
    "a.obj --unit -",
    "--workers 5 5 --workers=5",
];

#[test]
fn lists_of_words_make_plans_or_are_refused(rt: HostRuntime) -> Result<(), Fail> {
    for (line, place, workers, unit, build) in &ACCEPTED {
        let plan = Plan {
            input: Input::File(*place),
            workers: *workers,
            build: *build,
            unit: *unit,
        };
        comes_to(&rt, line, Ok(plan))?;
    }
    for (line, squares, workers, build) in &GRIDS {
        let plan = Plan {
            input: Input::Grid(*squares),
            workers: *workers,
            build: *build,
            unit: 64,
        };
        comes_to(&rt, line, Ok(plan))?;
    }
    for line in &REFUSED {
        comes_to(&rt, line, Err(WordsFault::Usage))?;
    }
    let none: Vec<String> = Vec::new(rt.alloc());
    assert_eq!(rt; read_words(rt.alloc(), &none), Err(WordsFault::Usage));
    Ok(())
}

/// Reads the words of a line, and compares what they come to.
fn comes_to<R: Abort + AllocGlobal>(
    rt: &R,
    line: &str,
    plan: Result<Plan, WordsFault>,
) -> Result<(), Fail> {
    let alloc = rt.alloc();
    let mut words = Vec::new(alloc);
    for word in line.split(' ') {
        words.push(String::from_str(alloc, word)?)?;
    }
    assert_eq!(rt; read_words(alloc, &words), plan, "{line}");
    Ok(())
}
