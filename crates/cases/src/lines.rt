//! Sessions of the program, with the replies that its rules ask for.
use book::replies;
use std::alloc::Global;
use std::process::Abort;
use std::test::Fail;

/// The replies to an input are these; two bytes behind them stay, and of lent bytes that are too few those that there are
/// get written.
fn session(
    rt: &impl Abort,
    heap: Global,
    about: &str,
    input: &[u8],
    expected: &[u8],
) -> Result<(), Fail> {
    let len = replies(input, &mut []);
    let mut out = vec![in heap; b'#'; len.saturating_add(2)]?;
    assert_eq!(rt; replies(input, out.as_mut_slice()), len, "{about}");
    let mut whole = expected.to_vec(heap)?;
    whole.extend_from_slice(b"##")?;
    assert_eq!(rt; out, whole, "{about}");
    let mut short = [b'#'; 3];
    assert_eq!(rt; replies(input, &mut short), len, "{about}");
    for (a, b) in short.iter().zip(expected.iter()) {
        assert_eq!(rt; *a, *b, "{about}");
    }
    Ok(())
}

/// What a session shows, its input, and the replies to it.
const WORKED: [(&str, &str, &str); 37] = [
    ("no input", "", ""),
    ("an empty line", "\n", "? 17\n"),
    ("empty lines", "g 1\n\n\n", "g 0\n? 17\n? 17\n"),
    ("no byte 10 at the end", "g 16\np 15 15", "g 0\np 0 1\n"),
    ("CR LF", "g 16\r\n", "? 17\n"),
    ("a NUL byte", "g 16\nc\0\n", "g 0\n? 17\n"),
    ("two spaces", "g  16\n", "? 17\n"),
    ("a space at the end", "g 16 \n", "? 17\n"),
    ("a space in front", " g 16\n", "? 17\n"),
    ("no number", "g\n", "? 17\n"),
    ("a space and no number", "g \n", "? 17\n"),
    ("a number too many", "g 16 16\n", "? 17\n"),
    ("two letters", "gg 16\n", "? 17\n"),
    ("no space", "g16\n", "? 17\n"),
    ("no digit", "g -1\ng 1a\n", "? 17\n? 17\n"),
    (
        "zeros in front",
        "g 0000000000000000000016\np 00 0000\n",
        "g 0\np 0 1\n",
    ),
    ("the greatest number", "g 4294967295\n", "g 1\n"),
    ("past the greatest number", "g 4294967296\n", "? 17\n"),
    ("far past it", "g 99999999999999999999999\n", "? 17\n"),
    ("sides", "g 0\ng 1048577\ng 1048576\n", "g 1\ng 1\ng 0\n"),
    (
        "great coordinates",
        "g 5\np 4294967295 0\np 0 4294967296\n",
        "g 0\np 2\n? 17\n",
    ),
    ("before a grid", "p 0 0\nt 0 0\nc\n", "? 17\n? 17\n? 17\n"),
    (
        "a grid after a grid",
        "g 2\ng 2\ng 0\nc\n",
        "g 0\n? 17\n? 17\nc 0\n",
    ),
    (
        "letters of later layers",
        "g 2\nk\nw 0 0 1 1\nq 0 0\n",
        "g 0\n? 17\n? 17\n? 17\n",
    ),
    ("other letters", "g 2\nx\nP 1 1\n", "g 0\n? 17\n? 17\n"),
    ("numbers missing", "g 2\np 1\nt\n", "g 0\n? 17\n? 17\n"),
    (
        "numbers too many",
        "g 2\np 1 1 1\nc 1\n",
        "g 0\n? 17\n? 17\n",
    ),
    (
        "five numbers",
        "g 2\np 1 1 1 1 1\np 1 1 1 1 1 1\n",
        "g 0\n? 17\n? 17\n",
    ),
    (
        "a byte past ASCII",
        "g 2\né 1 1\np 1 é\n",
        "g 0\n? 17\n? 17\n",
    ),
    (
        "off the grid in x",
        "g 2\np 2 0\nt 2 0\n",
        "g 0\np 2\nt 2\n",
    ),
    (
        "off the grid in y",
        "g 2\np 0 2\nt 0 2\n",
        "g 0\np 2\nt 2\n",
    ),
    (
        "the corner of the grid",
        "g 2\np 1 1\nt 1 1\n",
        "g 0\np 0 1\nt 0 0\n",
    ),
    ("not held", "g 2\nt 1 1\n", "g 0\nt 4\n"),
    (
        "the second of two equal hits",
        "g 9\np 3 4\np 3 4\nt 3 4\nt 3 4\nt 3 4\n",
        "g 0\np 0 1\np 0 2\nt 0 1\nt 0 0\nt 4\n",
    ),
    (
        "a mirrored cell",
        "g 9\np 3 4\np 4 3\nt 4 3\nt 4 3\nt 3 4\n",
        "g 0\np 0 1\np 0 2\nt 0 1\nt 4\nt 0 0\n",
    ),
    (
        "the first hit goes",
        "g 9\np 1 1\np 2 2\np 3 3\nt 1 1\nt 3 3\nt 2 2\n",
        "g 0\np 0 1\np 0 2\np 0 3\nt 0 2\nt 0 1\nt 0 0\n",
    ),
    (
        "clear",
        "g 9\np 1 1\np 2 2\nc\nt 1 1\np 1 1\n",
        "g 0\np 0 1\np 0 2\nc 0\nt 4\np 0 1\n",
    ),
];

#[test]
fn worked_sessions(rt: HostRuntime) -> Result<(), Fail> {
    for (about, input, expected) in WORKED {
        session(
            &rt,
            rt.alloc(),
            about,
            input.as_bytes(),
            expected.as_bytes(),
        )?;
    }
    Ok(())
}

/// A text so many times, one after another.
fn repeated(heap: Global, text: &str, times: usize) -> Result<String, Fail> {
    let mut all = String::new(heap);
    for _ in 0..times {
        all.push_str(text)?;
    }
    Ok(all)
}

/// A first line, others that are all the same, and a last one.
fn long(heap: Global, first: &str, each: &str, times: usize, last: &str) -> Result<String, Fail> {
    let mut all = String::from_str(heap, first)?;
    all.push_str(repeated(heap, each, times)?.as_str())?;
    all.push_str(last)?;
    Ok(all)
}

#[test]
fn a_full_sheet(rt: HostRuntime) -> Result<(), Fail> {
    let heap = rt.alloc();
    let input = long(
        heap,
        "g 3\n",
        "p 1 2\n",
        1024,
        "p 1 2\np 3 0\nt 1 2\np 2 2\np 0 0\n",
    )?;
    let mut expected = String::from_str(heap, "g 0\n")?;
    for held in 1..1025u32 {
        expected.writeln(format_args!("p 0 {held}"))?;
    }
    expected.push_str("p 3\np 2\nt 0 1023\np 0 1024\np 3\n")?;
    session(
        &rt,
        heap,
        "a full sheet",
        input.as_bytes(),
        expected.as_bytes(),
    )
}

/// 4 bytes and 32,766 times 2 bytes are 65,536; a line more is not read.
#[test]
fn the_most_input(rt: HostRuntime) -> Result<(), Fail> {
    let heap = rt.alloc();
    let input = long(heap, "g 1\n", "c\n", 32766, "p 0 0\n")?;
    let expected = long(heap, "g 0\n", "c 0\n", 32766, "")?;
    session(
        &rt,
        heap,
        "the most input",
        input.as_bytes(),
        expected.as_bytes(),
    )
}

/// The last line that is read is cut off behind its second space.
#[test]
fn a_line_cut_off(rt: HostRuntime) -> Result<(), Fail> {
    let heap = rt.alloc();
    let input = long(heap, "g 1\n", "c\n", 32764, "p 0 0\n")?;
    let expected = long(heap, "g 0\n", "c 0\n", 32764, "? 17\n")?;
    session(
        &rt,
        heap,
        "a line cut off",
        input.as_bytes(),
        expected.as_bytes(),
    )
}
