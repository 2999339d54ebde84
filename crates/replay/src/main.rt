#![tactic(auto)]
// Replays a fixed list of answers, those of the original Rust and of a plain reading of the documents (oracle/README.md, "The list of
// answers"), against the proved crates, with no Rust at hand. It stops at the first that differs.
ghost use Rattle.std.specs.Prelude.{◌≡◌, ◌≤◌, length};

use formula::bytes::u32_at;
use graphfile::read_full;
use intake::words_from;
use std::io::Read;
use std::{fs, io};
use text::{put_field, put_text};

// At most k bytes from a place on.
fn part(s: &[u8], at: usize, k: usize) -> &[u8] {
    let rest = s.get(at..).unwrap_or(&[]);
    rest.get(..k).unwrap_or(rest)
}

// Field k of an entry's head; there are twelve, and kinds, rules, operators and sides are numbers in the list as they are for C.
fn field(head: &[u8], k: u32) -> u64 {
    u32_at(head, k.saturating_mul(4)) as u64
}

// Room for the words or the values of an entry.
fn lent() -> [u64; 16]
    ensures { 16 ≡ length result }
{
    [u64::MAX; 16]
}

// A search in the lent values: the answer's six numbers are fields 6 to 11, and the values afterwards are those of the list.
fn search_agrees(
    head: &[u8],
    file: &[u8],
    words: &[u64],
    after: &[u64],
    values: &mut [u64],
) -> bool {
    let mut out = [0u64; 6];
    ffi::searching::solve_file(file, words, u32_at(head, 20), values, &mut out);
    let told = [
        field(head, 6),
        field(head, 7),
        field(head, 8),
        field(head, 9),
        field(head, 10),
        field(head, 11),
    ];
    out == told && *values == *after
}

// A single value: s, t and the answer are the values; the table's answer has the number 1.
fn rule_agrees(head: &[u8], words: &[u64], s: u64, t: u64, answer: u64) -> bool {
    let mut out = [0u64; 3];
    let rule = field(head, 7);
    let at = field(head, 5) as usize;
    ffi::single::rule_op(
        rule,
        field(head, 8),
        field(head, 9),
        s,
        t,
        words,
        at,
        &mut out,
    );
    let number = if rule == 0 { 1 } else { field(head, 6) };
    let told = [number, answer, field(head, 10)];
    out == told
}

fn by_kind(head: &[u8], file: &[u8], words: &[u64], given: &[u64]) -> bool {
    if field(head, 0) == 0 {
        let mut values = lent();
        let n = given.len().min(16);
        return search_agrees(head, file, words, given, &mut values[..n]);
    }
    let &[s, t, answer, ..] = given else {
        return false;
    };
    rule_agrees(head, words, s, t, answer)
}

// Whether an entry agrees: its head, and behind it f bytes of file, w words and the values.
fn agrees(head: &[u8], body: &[u8], f: u32, w: u32) -> bool {
    let mut words = lent();
    let mut given = lent();
    let words_at = f as usize;
    let length = 8 * (w as usize);
    let k = words_from(part(body, words_at, length), &mut words);
    let n = words_from(part(body, words_at + length, 128), &mut given);
    by_kind(head, part(body, 0, words_at), &words[..k], &given[..n])
}

fn read_body<R: Read>(list: &mut R, head: &[u8], body: &mut [u8]) -> bool {
    let k = read_full(list, body);
    agrees(head, part(body, 0, k), u32_at(head, 8), u32_at(head, 12))
}

// Reads the next entry: a head of twelve fields, and what it says follows.
fn next_agrees<R: Read>(list: &mut R) -> bool {
    let mut head = [0u8; 48];
    read_full(list, &mut head);
    let f = u32_at(&head, 8) as usize;
    let w = u32_at(&head, 12) as usize;
    let v = u32_at(&head, 16) as usize;
    let mut body = [0; 400];
    let n = (f + 8 * w + 8 * v).min(400);
    read_body(list, &head, &mut body[..n])
}

// How many entries agree, up to the first that does not.
fn replay<R: Read>(list: &mut R, total: u32) -> u32
    ensures { result ≤ total }
{
    for i in 0..total {
        if !next_agrees(list) {
            return i;
        }
    }
    total
}

// How many entries the list says that it has.
fn count_of<R: Read>(list: &mut R) -> u32 {
    let mut count = [0u8; 4];
    read_full(list, &mut count);
    u32_at(&count, 0)
}

// A list that can't be opened counts as empty.
fn main(rt: HostRuntime) -> io::Result<()> {
    let mut total = 0;
    let mut agreed = 0;
    if let Ok(mut list) = fs::open(&rt, "list") {
        total = count_of(&mut list);
        agreed = replay(&mut list, total);
    }
    let mut out = [0u8; 64];
    let a = put_field(&mut out, 0, b"replayed ", agreed as u64);
    let b = put_field(&mut out, a, b" of ", total as u64);
    let c = put_text(&mut out, b, b"\n");
    rt.write_all(part(&out, 0, c))
}
