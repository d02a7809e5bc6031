// Runs the program on each line of the file `list` and prints what it reports. A line has the arguments with one space between two,
// so that a doubled space and one at the line's end make an empty argument; an empty line has none. A line that begins with '!' has
// the named arguments of the program for rollouts, one with '=' those of the program that makes tables, and one with '&' those of the program
// that merges two traces. One with '@' has those of the program that shows messages, and one with '^' of the one that says why a time
// moved. A line that begins with '>' names a file, which is printed, and one with '?' two files, which are compared. A
// line that begins with ':' has a choice and a line of a trace, which is a whole trace with its LF, and of one with '/' every beginning is,
// without an LF. A line that begins with '|' has a choice and two lines with a bar between them, a whole trace each, which are merged. A new
// case needs no proof.
#![tactic(auto)]

ghost use Rattle.std.specs.Prelude.{◌≡◌, ◌≤◌, length};

use files::Disk;
use octets::find;
use showing::Shows;
use std::fs;
use std::fs::{File, OpenFile, OpenOptions, Permissions};
use std::io::Write;
use std::os::unix::fs::{PermissionsExt, symlink};
use std::rt::Files;

const STDOUT: i32 = 1;

// The programs that take a choice, two files and one word more, or two.
#[derive(Clone, Copy)]
enum Program {
    Judge,
    Merge,
    Messages,
    Why,
}

fn main(rt: HostRuntime) {
    lock(&rt, "locked");
    link(&rt, "kept", "link");
    link(&rt, "absent", "nowhere");
    write_long(&rt);
    write_filling(&rt);
    let mut list = io::large_buffer();
    let (Ok(n) | Err(n)) = files::load(&rt, b"list", &mut list);
    cases(&rt, &list[..n]);
}

// A file that its owner may neither read nor write.
fn lock<R: Files>(rt: &R, name: &str) {
    if let Ok(file) = OpenOptions::new()
        .write(true)
        .create_new(true)
        .open(rt, name)
    {
        let _ = file.set_permissions(Permissions::from_mode(0));
    }
}

// A link to another name, in the place of whatever has this one.
fn link<R: Files>(rt: &R, to: &str, name: &str) {
    let _ = fs::remove_file(rt, name);
    let _ = symlink(rt, to, name);
}

// A text of latencies as long as one may be, and one with a byte more: a rule, and then a comment.
fn write_long<R: Files>(rt: &R) {
    let text = long_text();
    write_first(rt, "full.latencies", b"", &text, 262_144, b"");
    write_first(rt, "overlong.latencies", b"", &text, 262_145, b"");
}

// Two traces of one line, which lenient passes over. With 40,960 bytes of another trace the first fills a room of 65,536, and the second has
// a byte more.
fn write_filling<R: Files>(rt: &R) {
    let text = long_text();
    let head = b"-5 0 0.000000 0 0 1 ";
    write_first(rt, "fills.picl", head, &text, 24_555, b"\n");
    write_first(rt, "overfills.picl", head, &text, 24_556, b"\n");
}

fn long_text() -> [u8; 262145]
    ensures { length result ≡ 262145 }
{
    let mut text = [b'#'; 262145];
    text[0] = b'*';
    text[1] = b' ';
    text[2] = b'*';
    text[3] = b' ';
    text[4] = b'5';
    text
}

// The first bytes of a text.
fn write_first<R: Files>(rt: &R, name: &str, head: &[u8], text: &[u8], n: usize, end: &[u8]) {
    if let Some(first) = text.get(..n) {
        write(rt, name, head, first, end);
    }
}

// A text into a file, whatever it held, between what comes before and what comes behind it.
fn write<R: Files>(rt: &R, name: &str, head: &[u8], text: &[u8], end: &[u8]) {
    if let Ok(mut file) = File::create(rt, name) {
        let _ = file.write_all(head);
        let _ = file.write_all(text);
        let _ = file.write_all(end);
    }
}

fn cases<R: Disk>(rt: &R, list: &[u8]) {
    let mut at = 0;
    while at < list.len() {
        let end = find(list, at, b'\n');
        case(rt, &list[at..end]);
        at = end + 1;
    }
}

fn case<R: Disk>(rt: &R, line: &[u8]) {
    print(b"== ");
    print(line);
    print(b"\n");
    let Some((kind, rest)) = line.split_first() else {
        run(rt, Program::Judge, line);
        return;
    };
    match *kind {
        b'>' => show(rt, rest),
        b'?' => compare(rt, rest),
        b'=' => make(rt, rest),
        b'!' => rollout::perform(rt, rest, b' '),
        b':' => judge_line(rt, rest),
        b'/' => judge_beginnings(rt, rest),
        b'&' => run(rt, Program::Merge, rest),
        b'@' => run(rt, Program::Messages, rest),
        b'^' => run(rt, Program::Why, rest),
        b'|' => merge_lines(rt, rest),
        _ => run(rt, Program::Judge, line),
    }
}

fn perform<R: Disk>(
    rt: &R,
    program: Program,
    count: usize,
    choice: &[u8],
    first: &[u8],
    second: &[u8],
    third: &[u8],
    last: &[u8],
) {
    match program {
        Program::Judge => shell::perform(rt, count, choice, first, second, third),
        Program::Merge => gather::perform(rt, count, choice, first, second, third),
        Program::Messages => {
            inquiry::perform(
                rt,
                Shows::Messages,
                count,
                choice,
                first,
                second,
                third,
                last,
            )
        }
        Program::Why => inquiry::perform(
            rt,
            Shows::Reasons,
            count,
            choice,
            first,
            second,
            third,
            last,
        ),
    }
}

// The words of a line as its arguments, with its own name in the count.
fn run<R: Disk>(rt: &R, program: Program, line: &[u8]) {
    if line.is_empty() {
        perform(rt, program, 1, line, line, line, line, line);
        return;
    }
    let a = behind(line, 0);
    let b = behind(line, a);
    let c = behind(line, b);
    let d = behind(line, c);
    perform(
        rt,
        program,
        spaces(line) + 2,
        word(line, 0),
        word(line, a),
        word(line, b),
        word(line, c),
        word(line, d),
    );
}

// The same for the program that makes tables.
fn make<R: Disk>(rt: &R, line: &[u8]) {
    if line.is_empty() {
        tables::perform(rt, 1, line, line);
        return;
    }
    let a = behind(line, 0);
    tables::perform(rt, spaces(line) + 2, word(line, 0), word(line, a));
}

// A choice and a line of a trace.
fn judge_line<R: Disk>(rt: &R, line: &[u8]) {
    let text = behind(line, 0);
    judge_text(rt, word(line, 0), &line[text..], b"\n");
}

fn judge_beginnings<R: Disk>(rt: &R, line: &[u8]) {
    for n in 0..line.len() {
        judge_text(rt, b"1", &line[..n + 1], b"");
    }
}

fn judge_text<R: Disk>(rt: &R, choice: &[u8], text: &[u8], end: &[u8]) {
    write(rt, "text", b"", text, end);
    shell::perform(rt, 4, choice, b"text", b"five.table", b"");
}

// What two lines are merged into is printed: nothing, where they are refused.
fn merge_lines<R: Disk>(rt: &R, line: &[u8]) {
    let a = behind(line, 0);
    let b = next(line, a, b'|');
    write(rt, "one", b"", part(line, a, b'|'), b"\n");
    write(rt, "other", b"", &line[b..], b"\n");
    write(rt, "both", b"", b"", b"");
    gather::perform(rt, 5, word(line, 0), b"one", b"other", b"both");
    show(rt, b"both");
}

// The part of a line that begins at a place and goes to a byte, and where the next one begins: at the line's end where there is none.
fn part(line: &[u8], at: usize, stop: u8) -> &[u8]
    requires { at ≤ length line.now }
{
    let end = find(line, at, stop);
    &line[at..end]
}

fn next(line: &[u8], at: usize, stop: u8) -> usize
    requires { at ≤ length line.now }
    ensures { result ≤ length line.now }
{
    let end = find(line, at, stop);
    if end < line.len() { end + 1 } else { end }
}

// Words, which a space ends.
fn word(line: &[u8], at: usize) -> &[u8]
    requires { at ≤ length line.now }
{
    part(line, at, b' ')
}

fn behind(line: &[u8], at: usize) -> usize
    requires { at ≤ length line.now }
    ensures { result ≤ length line.now }
{
    next(line, at, b' ')
}

fn spaces(line: &[u8]) -> usize
    ensures { result ≤ length line.now }
{
    line.iter().filter(|byte| **byte == b' ').count()
}

fn show<R: Disk>(rt: &R, name: &[u8]) {
    let mut text = io::large_buffer();
    match files::load(rt, name, &mut text) {
        Ok(n) => print(&text[..n]),
        Err(_) => print(b"no file\n"),
    }
}

fn compare<R: Disk>(rt: &R, line: &[u8]) {
    let a = behind(line, 0);
    let mut one = io::large_buffer();
    let mut other = io::large_buffer();
    let first = files::load(rt, word(line, 0), &mut one);
    let second = files::load(rt, word(line, a), &mut other);
    let (Ok(n), Ok(m)) = (first, second) else {
        print(b"no file\n");
        return;
    };
    if one[..n] == other[..m] {
        print(b"same\n");
    } else {
        print(b"different\n");
    }
}

fn print(text: &[u8]) {
    io::write_all(STDOUT, text);
}
