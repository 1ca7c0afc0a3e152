//! Lines of inputs in memory, and the failures of the source and the sink in memory.

ghost use Rattle.std.specs.Prelude.{◌<◌};

use line_io::{
    Line, LineFault, Lines, MemorySink, MemorySource, Sink, Source, SourceFault, StdSource,
};
use std::alloc::{AllocError, Global};
use std::test::Fail;

/// Appends what comes next: `|` behind a text, `!` for a line that is too long, or how the input ends: `.` at its end, `>` behind
/// the limit, `x` at a fault. Whether it goes on.
fn spell_next(
    lines: &mut Lines,
    source: &mut MemorySource,
    spelled: &mut Vec<u8>,
) -> Result<bool, AllocError> {
    let (mark, goes_on) = match lines.next(source) {
        Ok(Some(Line::Text)) => (b'|', true),
        Ok(Some(Line::TooLong)) => (b'!', true),
        Ok(None) => (b'.', false),
        Err(LineFault::Limit) => (b'>', false),
        Err(LineFault::Read) => (b'x', false),
    };
    if mark == b'|' {
        spelled.extend_from_slice(lines.text())?;
    }
    spelled.push(mark)?;
    Ok(goes_on)
}

fn spell_all(
    lines: &mut Lines,
    source: &mut MemorySource,
    spelled: &mut Vec<u8>,
) -> Result<(), AllocError> {
    for _turn in 0..9u32 {
        if !spell_next(lines, source, spelled)? {
            break;
        }
    }
    Ok(())
}

/// What `spell_all` says of the lines.
fn spelled_lines(
    alloc: Global,
    lines: &mut Lines,
    source: &mut MemorySource,
) -> Result<Vec<u8>, AllocError> {
    let mut spelled = Vec::new(alloc);
    spell_all(lines, source, &mut spelled)?;
    Ok(spelled)
}

/// The lines of an input, and how it ends.
fn spelled(
    alloc: Global,
    input: &[u8],
    limit: u64,
    cut: u32,
    fails: &[u64],
) -> Result<Vec<u8>, AllocError>
    requires { 0 < cut }
{
    let mut source = MemorySource::new(alloc, input, cut, fails)?;
    let mut lines = Lines::new(alloc, limit)?;
    spelled_lines(alloc, &mut lines, &mut source)
}

/// Whether the input has these lines and this end.
fn has_lines(
    alloc: Global,
    input: &[u8],
    limit: u64,
    cut: u32,
    fails: &[u64],
    want: &[u8],
) -> Result<bool, AllocError>
    requires { 0 < cut }
{
    let lines = spelled(alloc, input, limit, cut, fails)?;
    Ok(lines.as_slice() == want)
}

/// Inputs and the lines with the end, an equals sign between, and limits.
const LIMITED: [(&str, u64); 10] = [
    ("=.", 0),
    ("a\r\n\nb\r\r\nc\n=a||b\r|c|.", 99),
    ("a\nb=a|b|.", 99),
    ("a\nb\r=a|b\r|.", 99),
    ("a\nbc=a|bc|.", 4),
    ("a\nbc=a|>", 3),
    ("a\nb\n=a|>", 3),
    ("a\nb\n=a|b|.", 4),
    ("a\nb\nc=a|b|>", 4),
    ("abcdef=>", 3),
];

/// How many bytes a call gives.
const CUTS: [u32; 3] = [1, 2, 99];

/// Whether the input has these lines, however few bytes a call gives.
fn has_lines_by_any(
    alloc: Global,
    input: &[u8],
    limit: u64,
    want: &[u8],
) -> Result<bool, AllocError> {
    for cut in &CUTS {
        if *cut == 0 || !has_lines(alloc, input, limit, *cut, &[], want)? {
            return Ok(false);
        }
    }
    Ok(true)
}

/// Whether a row's input has its lines.
fn is_limited(alloc: Global, row: &(&str, u64)) -> Result<bool, AllocError> {
    let (text, limit) = *row;
    match text.split_once('=') {
        Some((input, want)) => has_lines_by_any(alloc, input.as_bytes(), limit, want.as_bytes()),
        None => Ok(false),
    }
}

/// Whether each row's does.
fn are_limited(alloc: Global) -> Result<bool, AllocError> {
    for row in &LIMITED {
        if !is_limited(alloc, row)? {
            return Ok(false);
        }
    }
    Ok(true)
}

#[test]
fn lines_within_the_limit(rt: HostRuntime) -> Result<(), Fail> {
    assert!(rt; are_limited(rt.alloc())?);
    Ok(())
}

/// How a line ends.
#[derive(Clone, Copy)]
enum End {
    None,
    Feed,
    Both,
    Return,
}

/// The bytes of the end.
fn end_of(end: End) -> &'static [u8] {
    match end {
        End::None => b"",
        End::Feed => b"\n",
        End::Both => b"\r\n",
        End::Return => b"\r",
    }
}

/// Lines of so many bytes with an end behind them, and whether they are texts.
const LONG: [(usize, End, bool); 8] = [
    (16_384, End::None, true),
    (16_384, End::Feed, true),
    (16_384, End::Both, true),
    (16_384, End::Return, false),
    (16_385, End::None, false),
    (16_385, End::Feed, false),
    (16_385, End::Both, false),
    (70_000, End::Feed, false),
];

/// Whether an input of so many bytes with this end is one text, or else one line that is too long.
fn is_long(
    alloc: Global,
    count: usize,
    end: &[u8],
    cut: u32,
    is_text: bool,
) -> Result<bool, AllocError>
    requires { 0 < cut }
{
    let mut input = vec![in alloc; b'a'; count]?;
    input.extend_from_slice(end)?;
    let lines = spelled(alloc, &input, 99_999, cut, &[])?;
    Ok(lines.len() == if is_text { 16_386 } else { 2 })
}

/// The same, however few bytes a call gives.
fn is_long_by_any(
    alloc: Global,
    count: usize,
    end: &[u8],
    is_text: bool,
) -> Result<bool, AllocError> {
    Ok(is_long(alloc, count, end, 1, is_text)? && is_long(alloc, count, end, 99_999, is_text)?)
}

/// Whether each line is a text, or too long, as its row says.
fn are_long(alloc: Global) -> Result<bool, AllocError> {
    for (count, end, is_text) in &LONG {
        if !is_long_by_any(alloc, *count, end_of(*end), *is_text)? {
            return Ok(false);
        }
    }
    Ok(true)
}

#[test]
fn a_line_has_at_most_16384_bytes(rt: HostRuntime) -> Result<(), Fail> {
    assert!(rt; are_long(rt.alloc())?);
    Ok(())
}

/// How many bytes a call gives at most, which calls fail, and the lines of `a`, `b` and `cd` with the end.
const FAILING: [(u32, &[u64], &[u8]); 3] = [
    (2, &[1], b"x"),
    (2, &[3], b"a|b|x"),
    (99, &[3], b"a|b|cd|."),
];

#[test]
fn a_source_fails_at_the_calls_that_are_named(rt: HostRuntime) -> Result<(), Fail> {
    for (cut, fails, want) in &FAILING {
        assert!(rt; *cut > 0 && has_lines(rt.alloc(), b"a\nb\ncd", 99, *cut, fails, want)?);
    }
    Ok(())
}

/// Whether the sink takes the text.
fn is_put(sink: &mut MemorySink, text: &[u8]) -> bool {
    sink.put(text).is_ok()
}

/// Whether the second of three calls alone fails, of whose text two bytes were put.
fn fails_once(sink: &mut MemorySink) -> bool {
    is_put(sink, b"abc")
        && !is_put(sink, b"defgh")
        && is_put(sink, b"ij")
        && sink.bytes() == b"abcdeij".as_slice()
}

#[test]
fn a_sink_fails_at_the_calls_that_are_named(rt: HostRuntime) -> Result<(), Fail> {
    let mut sink = MemorySink::new(rt.alloc(), &[2])?;
    assert!(rt; fails_once(&mut sink));
    Ok(())
}

/// What a source of three bytes answers to four calls with room for two, and what lies in that room then.
fn filled() -> ([Result<usize, SourceFault>; 4], [u8; 2]) {
    let mut source = StdSource::new(b"abc".as_slice());
    let mut out = [0; 2];
    let first = source.fill(&mut out);
    let second = source.fill(&mut out);
    let third = source.fill(&mut out);
    let fourth = source.fill(&mut out);
    ([first, second, third, fourth], out)
}

#[test]
fn the_end_of_a_reader_is_no_fault(rt: HostRuntime) -> Result<(), Fail> {
    assert_eq!(rt; filled(), ([Ok(2), Ok(1), Ok(0), Ok(0)], *b"cb"));
    Ok(())
}
