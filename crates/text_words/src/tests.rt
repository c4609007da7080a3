//! Each public call once, on words that other readers of text meet.

use super::*;
use std::test::Fail;

#[test]
fn lines_and_words_are_cut(rt: HostRuntime) -> Result<(), Fail> {
    let mut lines = Lines::new(b"one\n\n two \n");
    assert_eq!(rt; lines.next(), Some(b"one".as_slice()));
    assert_eq!(rt; lines.next(), Some(b"".as_slice()));
    let last = lines.next().ok_or("three lines")?;
    assert_eq!(rt; lines.next(), None);
    let mut words = Words::new(last);
    assert_eq!(rt; words.count(), 1);
    assert_eq!(rt; words.next(), Some(b"two".as_slice()));
    assert_eq!(rt; words.count(), 0);
    assert_eq!(rt; words.next(), None);
    assert_eq!(rt;
        first_line(b"one\n two"),
        Some((b"one".as_slice(), b" two".as_slice()))
    );
    assert_eq!(rt; first_line(b"one"), None);
    assert_eq!(rt;
        first_word(b"\tone two"),
        Some((b"one".as_slice(), b" two".as_slice()))
    );
    assert_eq!(rt; first_word(b" \r"), None);
    Ok(())
}

#[test]
fn a_line_that_ends_with_a_backslash_goes_on_in_the_next(rt: HostRuntime) {
    let text = b"v 1 \\\n2\\\r\n \\\n#3 \\\n\nf # 4 \\\r\n\\a \\";
    let mut lines = JoinedLines::new(text);
    assert_eq!(rt; lines.next_word(), None);
    let want: [(u32, &[&[u8]]); 4] = [
        (1, &[b"v", b"1", b"2"]),
        (5, &[]),
        (6, &[b"f"]),
        (7, &[b"\\a"]),
    ];
    for (number, words) in want.iter() {
        assert_eq!(rt; lines.next_line(), Some(*number));
        for word in words.iter() {
            assert_eq!(rt; lines.next_word(), Some(*word));
        }
        assert_eq!(rt; lines.next_word(), None);
    }
    assert_eq!(rt; lines.next_line(), None);
}

#[test]
fn three_numbers_are_taken_at_once_or_none(rt: HostRuntime) {
    let taken: [(&[u8], (u32, u32, u32), usize); 5] = [
        (b"1 22 333", (1, 22, 333), 0),
        (b"\t999999999 000000007\x0b0 4 x", (999_999_999, 7, 0), 2),
        (b"0000000012 1 1 ", (12, 1, 1), 0),
        (b"1 2 3\r", (1, 2, 3), 0),
        (b"1 2 3 4/4", (1, 2, 3), 1),
    ];
    for (line, want, left) in taken.iter() {
        let mut words = Words::new(line);
        assert_eq!(rt; words.three_numbers(), Some(*want));
        assert_eq!(rt; words.count(), *left);
    }
    let left: [(&[u8], usize); 8] = [
        (b"", 0),
        (b"1 2", 2),
        (b"1 2 1000000000", 3),
        (b"1 2 3a", 3),
        (b"1 2/2 3", 3),
        (b"1 2 3/", 3),
        (b"-1 2 3", 3),
        (b"1 2 \xa03", 3),
    ];
    for (line, count) in left.iter() {
        let mut words = Words::new(line);
        assert_eq!(rt; words.three_numbers(), None);
        assert_eq!(rt; words.count(), *count);
    }
}

#[test]
fn three_numbers_are_taken_across_joins(rt: HostRuntime) {
    let mut lines = JoinedLines::new(
        b"1 2 3#4\n1 \\\n2 \\\r\n3 4\n1 2 3\\\n4\n1 2 \\\n3/ 4\n1 2\\",
    );
    assert_eq!(rt; lines.three_numbers(), None);
    assert_eq!(rt; lines.next_line(), Some(1));
    assert_eq!(rt; lines.three_numbers(), Some((1, 2, 3)));
    assert_eq!(rt; lines.next_word(), None);
    assert_eq!(rt; lines.next_line(), Some(2));
    assert_eq!(rt; lines.three_numbers(), Some((1, 2, 3)));
    assert_eq!(rt; lines.next_word(), Some(b"4".as_slice()));
    assert_eq!(rt; lines.next_word(), None);
    assert_eq!(rt; lines.next_line(), Some(5));
    assert_eq!(rt; lines.three_numbers(), Some((1, 2, 3)));
    assert_eq!(rt; lines.next_word(), Some(b"4".as_slice()));
    assert_eq!(rt; lines.next_line(), Some(7));
    assert_eq!(rt; lines.three_numbers(), None);
    assert_eq!(rt; lines.next_word(), Some(b"1".as_slice()));
    assert_eq!(rt; lines.next_line(), Some(9));
    assert_eq!(rt; lines.three_numbers(), None);
    assert_eq!(rt; lines.next_word(), Some(b"1".as_slice()));
    assert_eq!(rt; lines.next_word(), Some(b"2".as_slice()));
    assert_eq!(rt; lines.next_word(), None);
    assert_eq!(rt; lines.next_line(), None);
}

#[test]
fn a_text_is_cut_behind_a_line_feed_that_joins_no_lines(rt: HostRuntime) {
    let cut: [(&[u8], &[u8], &[u8]); 10] = [
        (b"a\nb\nc\nd\n", b"a\nb\nc\n", b"d\n"),
        (b"ab\ncd", b"ab\n", b"cd"),
        (b"a\r\nb\r\nc\r\n", b"a\r\nb\r\n", b"c\r\n"),
        (b"v 1\nv \\\n2\nf", b"v 1\nv \\\n2\n", b"f"),
        (b"v 1\r\nv \\\r\n2\r\nf", b"v 1\r\nv \\\r\n2\r\n", b"f"),
        (b"v\n#\\\na\nb", b"v\n#\\\na\n", b"b"),
        (b"a\n\\b\nc", b"a\n\\b\n", b"c"),
        (b"a\\\r\r\nb", b"a\\\r\r\n", b"b"),
        (b"one two\n", b"one two\n", b""),
        (b"\n", b"\n", b""),
    ];
    for (text, left, right) in cut.iter() {
        assert_eq!(rt; halves(text), Some((*left, *right)));
    }
    let whole: [&[u8]; 5] = [b"", b"one two", b"a\nb c d", b"a\\\n", b"a\\\r\n"];
    for text in whole.iter() {
        assert_eq!(rt; halves(text), None);
    }
}
