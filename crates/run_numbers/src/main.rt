// A program for the tests: prints whole square roots, and fields read from a slice and put into a buffer.
#![tactic(auto)]

use std::io::Print;

// Squares, and numbers just below one.
const SMALL: [u64; 11] = [0, 1, 2, 3, 4, 8, 9, 15, 16, 99, 100];

// The same; the largest sum of squares that a distance on the grid can have, and one less; and the largest numbers of 63 and 64 bits.
const LARGE: [u64; 15] = [
    4294967295,
    4294967296,
    999999999999999999,
    1000000000000000000,
    1000000002000000000,
    1009999999999999999,
    1010000000000000000,
    1152921504606846975,
    1152921504606846976,
    4611686018427387903,
    4611686018427387904,
    9223372036854775807,
    18446744065119617024,
    18446744065119617025,
    18446744073709551615,
];

const BYTES: [u8; 12] = [1, 2, 3, 4, 5, 6, 7, 248, 249, 250, 251, 252];

// After a piece that cannot be printed the next is tried all the same: what is missing is seen by whoever compares.
fn main(rt: HostRuntime) {
    print_roots(&rt, &SMALL);
    print_roots(&rt, &LARGE);
    read_fields(&rt);
    put_fields(&rt);
}

// Each line printed is `root`, the number and its root.
fn print_roots(rt: &impl Print, numbers: &[u64]) {
    for n in numbers {
        let _ = println!(rt; "root {n} {}", squares::root(*n));
    }
}

// Each line printed is `four` or `eight`, the length of the slice, the place, and the number or `outside`.
fn read_fields(rt: &impl Print) {
    for at in [0, 1, 8, 9, 12, usize::MAX] {
        read_four(rt, &BYTES, at);
    }
    read_four(rt, &BYTES[..3], 0);
    read_four(rt, &BYTES[..4], 0);
    read_four(rt, &BYTES[..0], 0);
    for at in [0, 4, 5, usize::MAX] {
        read_eight(rt, &BYTES, at);
    }
    read_eight(rt, &BYTES[..7], 0);
    read_eight(rt, &BYTES[..8], 0);
    read_eight(rt, &BYTES[..0], 0);
}

fn read_four(rt: &impl Print, s: &[u8], at: usize) {
    let _ = print!(rt; "four {} {at} ", s.len());
    print_read(rt, fields::four_at(s, at).map(u64::from));
}

fn read_eight(rt: &impl Print, s: &[u8], at: usize) {
    let _ = print!(rt; "eight {} {at} ", s.len());
    print_read(rt, fields::eight_at(s, at));
}

fn print_read(rt: &impl Print, n: Option<u64>) {
    let _ = match n {
        Some(n) => println!(rt; "{n}"),
        None => println!(rt; "outside"),
    };
}

// Each line printed is `put`, the width, the place, the number, whether it was put, and the twelve bytes of the buffer, which were
// all 170 before.
fn put_fields(rt: &impl Print) {
    put_four(rt, 0, 16909060);
    put_four(rt, 3, 4294967295);
    put_four(rt, 8, 0);
    put_four(rt, 9, 16909060);
    put_four(rt, usize::MAX, 16909060);
    put_eight(rt, 0, 72623859790382856);
    put_eight(rt, 4, 18446744073709551615);
    put_eight(rt, 5, 72623859790382856);
    put_eight(rt, usize::MAX, 72623859790382856);
}

fn put_four(rt: &impl Print, at: usize, n: u32) {
    let mut buffer = [170u8; 12];
    let done = fields::put_four(&mut buffer, at, n);
    let _ = print!(rt; "put 4 {at} {n}");
    print_put(rt, done, &buffer);
}

fn put_eight(rt: &impl Print, at: usize, n: u64) {
    let mut buffer = [170u8; 12];
    let done = fields::put_eight(&mut buffer, at, n);
    let _ = print!(rt; "put 8 {at} {n}");
    print_put(rt, done, &buffer);
}

fn print_put(rt: &impl Print, done: bool, buffer: &[u8]) {
    let _ = print!(rt; "{}", if done { " done" } else { " outside" });
    for byte in buffer {
        let _ = print!(rt; " {byte}");
    }
    let _ = println!(rt);
}
