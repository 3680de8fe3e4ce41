//! Fields at the front of bytes, each with the bytes after it.
ghost use Rattle.std.specs.Prelude.{◌≡◌, ◌↔◌, length, is_ok, false, IsOk, IfOk, IfErr};
ghost use Rattle.std.specs.Int.{w8, w16, w32, w64};
ghost use Rattle.spool_types.specs.Limits.{greatest_number, greatest_moment};
ghost use Rattle.field_codec.specs.Fields.{Gives, MemoryOnly, part_at, number_at, ranged, text_at, utf8_of};

use crate::fault::CodecFault;
use spool_types::{JobId, Moment, Ranged, Text, TextKind};
use std::alloc::Global;

/// Returns the first `count` bytes.
#[tactic(auto, unfolding(crate::specs::Fields::part_at))]
pub fn part_at(count: usize, bytes: &[u8]) -> Result<(&[u8], &[u8]), CodecFault>
    ensures read { Gives (λ x. (x.0.now, x.1.now)) result (part_at count bytes.now) }
    ensures length { IfOk result (λ x. length x.0.now ≡ count) }
    ensures memory { IfErr result (MemoryOnly false) }
{
    if bytes.len() < count {
        return Err(CodecFault::Length);
    }
    Ok(bytes.split_at(count))
}

#[tactic(auto, unfolding(crate::specs::Fields::number_at))]
pub fn u8_at(bytes: &[u8]) -> Result<(u8, &[u8]), CodecFault>
    ensures read { Gives (λ x. (x.0, x.1.now)) result (number_at w8 bytes.now) }
    ensures memory { IfErr result (MemoryOnly false) }
{
    let (part, rest) = part_at(1, bytes)?;
    Ok((part[0], rest))
}

#[tactic(auto, unfolding(crate::specs::Fields::number_at))]
pub fn u16_at(bytes: &[u8]) -> Result<(u16, &[u8]), CodecFault>
    ensures read { Gives (λ x. (x.0, x.1.now)) result (number_at w16 bytes.now) }
    ensures memory { IfErr result (MemoryOnly false) }
{
    let (part, rest) = part_at(2, bytes)?;
    Ok((u16::from_be_bytes([part[0], part[1]]), rest))
}

#[tactic(auto, unfolding(crate::specs::Fields::number_at))]
pub fn u32_at(bytes: &[u8]) -> Result<(u32, &[u8]), CodecFault>
    ensures read { Gives (λ x. (x.0, x.1.now)) result (number_at w32 bytes.now) }
    ensures memory { IfErr result (MemoryOnly false) }
{
    let (part, rest) = part_at(4, bytes)?;
    let number = u32::from_be_bytes([part[0], part[1], part[2], part[3]]);
    Ok((number, rest))
}

#[tactic(auto, unfolding(crate::specs::Fields::number_at))]
pub fn u64_at(bytes: &[u8]) -> Result<(u64, &[u8]), CodecFault>
    ensures read { Gives (λ x. (x.0, x.1.now)) result (number_at w64 bytes.now) }
    ensures memory { IfErr result (MemoryOnly false) }
{
    let (part, rest) = part_at(8, bytes)?;
    let number = u64::from_be_bytes([
        part[0], part[1], part[2], part[3], part[4], part[5], part[6], part[7],
    ]);
    Ok((number, rest))
}

/// Returns a number if it is in its range.
#[tactic(auto, unfolding(crate::specs::Fields::ranged, crate::specs::Fields::checked))]
pub fn ranged<const LEAST: u32, const MOST: u32>(
    number: u32,
) -> Result<Ranged<LEAST, MOST>, CodecFault>
    ensures read { Gives (λ n. n) result (ranged LEAST MOST number) }
    ensures memory { IfErr result (MemoryOnly false) }
{
    match Ranged::new(number) {
        Some(ranged) => Ok(ranged),
        None => Err(CodecFault::Range),
    }
}

#[tactic(auto, unfolding(crate::specs::Fields::ranged, crate::specs::Fields::checked))]
pub fn job_id(number: u32) -> Result<JobId, CodecFault>
    ensures read { Gives (λ n. n) result (ranged 1 greatest_number number) }
    ensures memory { IfErr result (MemoryOnly false) }
{
    match JobId::new(number) {
        Some(job) => Ok(job),
        None => Err(CodecFault::Range),
    }
}

#[tactic(auto, unfolding(crate::specs::Fields::ranged, crate::specs::Fields::checked))]
pub fn moment(seconds: u64) -> Result<Moment, CodecFault>
    ensures read { Gives (λ n. n) result (ranged 0 greatest_moment seconds) }
    ensures memory { IfErr result (MemoryOnly false) }
{
    match Moment::new(seconds) {
        Some(moment) => Ok(moment),
        None => Err(CodecFault::Range),
    }
}

fn utf8_in(bytes: &[u8]) -> Result<&str, CodecFault>
    ensures read { Gives (λ s. s.now) result (utf8_of bytes.now) }
    ensures memory { IfErr result (MemoryOnly false) }
{
    match str::from_utf8(bytes) {
        Ok(text) => Ok(text),
        Err(_) => Err(CodecFault::Utf8),
    }
}

/// Returns a text of the kind `K`. It is copied once.
#[tactic(auto, unfolding(crate::specs::Fields::text_at, crate::specs::Fields::checked))]
pub fn text_at<K: TextKind>(alloc: Global, bytes: &[u8]) -> Result<(Text<K>, &[u8]), CodecFault>
    ensures read { Gives (λ x. (x.0, x.1.now)) result (text_at K.allowed bytes.now) }
    ensures memory { IfErr result (MemoryOnly (is_ok (text_at K.allowed bytes.now))) }
{
    let (length, rest) = u16_at(bytes)?;
    let (part, rest) = part_at(length as usize, rest)?;
    let copy = Text::read(alloc, utf8_in(part)?)?;
    Ok((copy, rest))
}

/// Returns Ok if no bytes follow the last field.
pub fn ended(rest: &[u8]) -> Result<(), CodecFault>
    ensures ok { IsOk result ↔ (length rest.now ≡ 0) }
    ensures fault { IfErr result (λ e. e ≡ CodecFault.Length) }
{
    if rest.is_empty() {
        Ok(())
    } else {
        Err(CodecFault::Length)
    }
}
