#![tactic(auto)]
// A batch on standard input: cases one after the other, each of three numbers of 4 bytes, most significant first (the length of the file, the
// entries of the table lent, the bytes of report space lent), and then the file's bytes.
ghost use Rattle.std.specs.Prelude.{◌≡◌, ◌≤◌, ◌<◌, length, take, true, false, ◌+◌, IfOk, OnOk, IfSome, IsNone};
ghost use Rattle.std.specs.Io.KnownBytes.{Consumes, IsAtEnd};
ghost use Rattle.batch.specs.Batch.{number, Loses, EndsBefore, ReadsInto, Reads, NoCase, Answered};

use std::io;
use std::io::Read;

// The most cases of a batch.
pub const CASES: u64 = 1000000;

// Room for a file: one byte more than an accepted one may have. Of a longer file only this much is kept, which is too long as well.
pub fn room() -> [u8; 65537]
    ensures { 65537 ≡ length result }
{
    [0; 65537]
}

// The number of a head's four bytes from a place on.
#[tactic(auto, unfolding(crate::specs::Batch::number))]
fn number_at(head: [u8; 12], at: usize) -> usize
    requires { at + 4 ≤ 12 }
    ensures { result ≡ number head at }
{
    u32::from_be_bytes([head[at], head[at + 1], head[at + 2], head[at + 3]]) as usize
}

// Reads until the space is full or the input ends, and hands back how many bytes it put at the front of the space.
#[tactic(auto, using(crate::proofs::Parts::read_more))]
pub fn read_full<R: Read>(input: &mut R, space: &mut [u8]) -> io::Result<usize>
    ensures within { IfOk result (λ n. n ≤ length space.new) }
    ensures same_length { length space.new ≡ length space.old }
    ensures bytes { IfOk result (λ n. Consumes (R.remaining input.old) (R.remaining input.new) (take n space.new)) }
    ensures end { IfOk result (λ n. n < length space.new → IsAtEnd (R.remaining input.new)) }
{
    let mut done: usize = 0;
    // A `while`: it goes by what each read gives, and std has no call that fills a slice and says how much it read.
    while done < space.len() {
        let n = input.read(&mut space[done..])?;
        if n == 0 {
            break;
        }
        done += n;
    }
    Ok(done)
}

// Reads so many bytes and keeps none; false where the input ends before them. There is no value beside the answer, so it stays a flag.
fn passed_over<R: Read>(input: &mut R, count: usize) -> io::Result<bool>
    ensures passed { IfOk result (λ all. all ≡ true → Loses (R.remaining input.old) (R.remaining input.new) count) }
    ensures ended { IfOk result (λ all. all ≡ false → EndsBefore (R.remaining input.old) count) }
{
    let mut waste = [0u8; 4096];
    for done in (0..count).step_by(waste.len()) {
        let part = (count - done).min(waste.len());
        let n = read_full(input, &mut waste[..part])?;
        if n < part {
            return Ok(false);
        }
    }
    Ok(true)
}

// A case that was read into a space: how much of its file the space holds, and what is to be lent, entries of a table and bytes of report space.
#[derive(Clone, Copy)]
pub struct Found {
    pub kept: usize,
    pub entries: usize,
    pub bytes: usize,
}

// Reads the next case's file into the space; none where the batch ends. Of a longer file only what the space holds is kept. The clauses on bytes
// hold of an input whose bytes are known.
pub fn read_case<R: Read>(input: &mut R, space: &mut [u8]) -> io::Result<Option<Found>>
    ensures within { IfOk result (λ found. IfSome found (λ case. case.kept ≤ length space.new)) }
    ensures same_length { length space.new ≡ length space.old }
    ensures read { IfOk result (λ found. IfSome found (λ case. ReadsInto (R.remaining input.old) (R.remaining input.new) space.new case)) }
    ensures none { IfOk result (λ found. IsNone found → NoCase (R.remaining input.old)) }
{
    let mut head = [0u8; 12];
    let n = read_full(input, &mut head)?;
    if n < 12 {
        return Ok(None);
    }
    let size = number_at(head, 0);
    let kept = size.min(space.len());
    let m = read_full(input, &mut space[..kept])?;
    if m < kept {
        return Ok(None);
    }
    if !passed_over(input, size - kept)? {
        return Ok(None);
    }
    Ok(Some(Found {
        kept,
        entries: number_at(head, 4),
        bytes: number_at(head, 8),
    }))
}

// A case that was read: its file, and what is to be lent, entries of a table and bytes of report space.
#[derive(Clone, Copy)]
pub struct Case<'a> {
    pub file: &'a [u8],
    pub entries: usize,
    pub bytes: usize,
}

// The same, with the file as it stands in the space.
pub fn next_case<'a, R: Read>(input: &mut R, space: &'a mut [u8]) -> io::Result<Option<Case<'a>>>
    ensures within { IfOk result (λ found. IfSome found (λ case. length case.file.now ≤ length space.old)) }
    ensures read { IfOk result (λ found. IfSome found (λ case. Reads (R.remaining input.old) (R.remaining input.new) (length space.old) case)) }
    ensures none { IfOk result (λ found. IsNone found → NoCase (R.remaining input.old)) }
{
    let Some(found) = read_case(input, space)? else {
        return Ok(None);
    };
    Ok(Some(Case {
        file: &space[..found.kept],
        entries: found.entries,
        bytes: found.bytes,
    }))
}

// Reads the cases of a batch and has each answered, with its number from 0, before the next is read. It ends where the batch does, or where an
// answer fails.
pub fn for_each_case<R: Read, F: FnMut(u64, Case) -> io::Result<()>>(
    input: &mut R,
    mut answer: F,
) -> io::Result<()>
    requires { F.IsAlwaysCallable answer }
    ensures { OnOk result ((last : F) × Answered F.step (R.remaining input.old) answer last) }
{
    let mut space = room();
    for number in 0..CASES {
        let Some(case) = next_case(input, &mut space)? else {
            return Ok(());
        };
        answer(number, case)?;
    }
    Ok(())
}
