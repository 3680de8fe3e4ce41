//! `ipp_codec_tests`: decodes and encodes the messages of the standard input, which follow one another.
//!
//! The file `stdin` has requests of lp(1), lpstat(1), lpq(1), cancel(1) and ipptool(1) of CUPS 2.4.2, and the answers of its cupsd(8), as
//! they were sent. `stdout` is written by the model of `tests/test_ipp_codec.py`. That script and `bench/ipp_codec.py` also run the program on
//! a longer answer, `data/printer_attributes`.
//!
//! | Arguments | Output |
//! |---|---|
//! | `exchanges COUNT SEED` | a line for each message |
//! | `decode COUNT`, `encode COUNT` | nothing, after COUNT calls with the first message |
//!
//! A line has the number of octets of the message, whether encoding it returns these octets, and two times three numbers. Of the proper
//! prefixes, and of COUNT copies with one changed octet, these are the numbers of messages, of octets that need more, and of faults.
//!
//! # Promises
//!
//! None. Each call meets its contract.
#![tactic(auto)]

use ipp_codec::{DecodeFault, decode, encode};
use std::alloc::Global;
use std::env;
use std::io::{self, Read};

/// How often decoding returned a message, `NeedMore`, and another fault.
#[derive(Clone, Copy)]
struct Counts {
    messages: u64,
    incomplete: u64,
    faults: u64,
}

impl Counts {
    fn none() -> Counts {
        Counts {
            messages: 0,
            incomplete: 0,
            faults: 0,
        }
    }

    fn add(&mut self, alloc: Global, octets: &[u8]) {
        match decode(alloc, octets) {
            Ok(_) => self.messages = self.messages.wrapping_add(1),
            Err(DecodeFault::NeedMore) => self.incomplete = self.incomplete.wrapping_add(1),
            Err(_) => self.faults = self.faults.wrapping_add(1),
        }
    }
}

fn cuts(alloc: Global, octets: &[u8]) -> Counts {
    let mut counts = Counts::none();
    for end in 0..octets.len() {
        counts.add(alloc, &octets[..end]);
    }
    counts
}

/// Changes one octet at a time. The places and the values are those of a linear congruential generator.
fn damage(alloc: Global, octets: &mut [u8], count: u64, seed: u64) -> Counts {
    let mut counts = Counts::none();
    let length = octets.len().max(1);
    let mut state = seed;
    for _ in 0..count {
        state = state
            .wrapping_mul(6_364_136_223_846_793_005)
            .wrapping_add(1_442_695_040_888_963_407);
        let place = (state >> 33) as usize % length;
        let change = 1 + (state >> 57) as u8;
        if let Some(octet) = octets.get_mut(place) {
            *octet = octet.wrapping_add(change);
        }
        counts.add(alloc, octets);
        if let Some(octet) = octets.get_mut(place) {
            *octet = octet.wrapping_sub(change);
        }
    }
    counts
}

/// Returns how many octets the message at the front takes, and whether encoding it returns them.
fn again(alloc: Global, octets: &[u8]) -> Option<(usize, bool)> {
    let Ok((message, taken)) = decode(alloc, octets) else {
        return None;
    };
    let spelled = encode(alloc, &message);
    drop(message);
    match spelled {
        Ok(spelled) => Some((
            taken,
            spelled.len() == taken && octets.starts_with(spelled.as_slice()),
        )),
        Err(_) => None,
    }
}

fn show(
    rt: &HostRuntime,
    taken: usize,
    same: bool,
    cuts: Counts,
    damaged: Counts,
) -> io::Result<()> {
    let Counts {
        messages,
        incomplete,
        faults,
    } = cuts;
    print!(rt; "{taken} {same} cuts {messages} {incomplete} {faults}")?;
    let Counts {
        messages,
        incomplete,
        faults,
    } = damaged;
    println!(rt; " damaged {messages} {incomplete} {faults}")
}

/// Shows the message at the front, and returns how many octets it takes. Octets that are no message are all taken.
fn exchange(rt: &HostRuntime, octets: &mut [u8], count: u64, seed: u64) -> io::Result<usize> {
    let alloc = rt.alloc();
    let Some((taken, same)) = again(alloc, octets) else {
        println!(rt; "no message")?;
        return Ok(octets.len());
    };
    if let Some(message) = octets.get_mut(..taken) {
        let damaged = damage(alloc, message, count, seed);
        show(rt, taken, same, cuts(alloc, message), damaged)?;
    }
    Ok(taken)
}

fn exchanges(rt: &HostRuntime, octets: &mut [u8], count: u64, seed: u64) -> io::Result<()> {
    let mut at = 0usize;
    for _ in 0..octets.len() {
        let Some(left) = octets.get_mut(at..) else {
            return Ok(());
        };
        if left.is_empty() {
            return Ok(());
        }
        let taken = exchange(rt, left, count, seed)?;
        at = at.saturating_add(taken);
    }
    Ok(())
}

fn decode_often(alloc: Global, octets: &[u8], count: u64) {
    for _ in 0..count {
        let _ = decode(alloc, octets);
    }
}

fn encode_often(alloc: Global, octets: &[u8], count: u64) {
    if let Ok((message, _)) = decode(alloc, octets) {
        for _ in 0..count {
            let _ = encode(alloc, &message);
        }
    }
}

fn number(word: Option<String>) -> u64 {
    match word {
        Some(word) => word.as_str().parse::<u64>().unwrap_or(1),
        None => 1,
    }
}

fn main(rt: HostRuntime) -> io::Result<()> {
    let mut octets = Vec::new(rt.alloc());
    rt.stdin().read_to_end(&mut octets)?;
    let mut words = env::args(&rt)?.skip(1);
    let Some(mode) = words.next() else {
        return Ok(());
    };
    let count = number(words.next());
    let seed = number(words.next());
    match mode.as_str() {
        "exchanges" => exchanges(&rt, &mut octets, count, seed),
        "decode" => {
            decode_often(rt.alloc(), &octets, count);
            Ok(())
        }
        "encode" => {
            encode_often(rt.alloc(), &octets, count);
            Ok(())
        }
        _ => Ok(()),
    }
}
