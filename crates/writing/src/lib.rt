// The writers of log records, chains, factors and jobs: each is tested, then its bytes are put into a buffer.
#![tactic(auto)]

ghost use Rattle.std.specs.Prelude.{◌≡◌, ◌+◌, ◌≤◌, ◌<◌, length, replicate};
ghost use Rattle.records.specs.LogRecords.{log_bytes};
ghost use Rattle.records.specs.ChainTables.{chain_bytes};
ghost use Rattle.records.specs.Jobs.{job_bytes};
ghost use Rattle.writing.specs.Writing.{numbers_fit, place_fits, chain_fits, refusal_of, used_of, in_metres, record_bytes, buffer_of};
ghost use Rattle.writing.specs.ChainWriting.{put_place_at, bytes_of_chain, chain_refusal_of, chain_buffer_of};
ghost use Rattle.writing.specs.FactorWriting.{factor_refusal_of, factor_buffer_of};
ghost use Rattle.writing.specs.JobWriting.{bytes_of_job, job_refusal_of, job_buffer_of};

use chart::{Chain, Place};
use records::{CHAIN_BYTES, FACTOR_BYTES, JOB_BYTES, Job, LOG_BYTES, MOST_CHAINS};
use refusals::Refusal;

// The content of a log record to be written. x and y are readings A and B, or easting and northing, in centimetres. The kind is a
// number, since a draft may have one that no record has: `write` refuses that with `Form`.
#[derive(Clone, Copy)]
pub struct Draft {
    pub kind: u32,
    pub chain: u32,
    pub line: u32,
    pub x: i64,
    pub y: i64,
}

// Writes a draft into a buffer of 32 bytes. A refused write leaves the whole buffer zero, whatever its length.
// There are four writers: their tests and their bytes have nothing in common, so a trait for them would have as many lines.
#[tactic(auto, using(crate::proofs::WriteLaws::written_bytes, crate::proofs::WriteLaws::used_small), unfolding(crate::specs::Writing::buffer_of, crate::specs::Buffers::left_in))]
pub fn write(buffer: &mut [u8], d: Draft) -> Result<(), Refusal>
    ensures answer { result ≡ refusal_of (length buffer.old) d }
    ensures buffer { buffer.new ≡ buffer_of (length buffer.old) d }
{
    let fits = refusal_of(buffer.len(), d);
    clear_buffer(buffer);
    fits?;
    put(buffer, used(d));
    Ok(())
}

// Writes a chain into a buffer of 24 bytes, by the same rules.
#[tactic(auto, using(crate::proofs::ChainWriteLaws::chain_fills), unfolding(crate::specs::ChainWriting::chain_buffer_of, crate::specs::Buffers::left_in))]
pub fn write_chain(buffer: &mut [u8], c: Chain) -> Result<(), Refusal>
    ensures answer { result ≡ chain_refusal_of (length buffer.old) c }
    ensures buffer { buffer.new ≡ chain_buffer_of (length buffer.old) c }
{
    let fits = chain_refusal(buffer.len(), c);
    clear_buffer(buffer);
    fits?;
    put_chain(buffer, c);
    Ok(())
}

// Writes the factor of a chain into a buffer of 4 bytes, by the same rules.
#[tactic(auto, using(crate::proofs::FactorWriteLaws::factor_fills, crate::proofs::FactorWriteLaws::factor_put), unfolding(crate::specs::FactorWriting::factor_buffer_of, crate::specs::Buffers::left_in))]
pub fn write_factor(buffer: &mut [u8], factor: u32) -> Result<(), Refusal>
    ensures answer { result ≡ factor_refusal_of (length buffer.old) factor }
    ensures buffer { buffer.new ≡ factor_buffer_of (length buffer.old) factor }
{
    let fits = factor_refusal(buffer.len(), factor);
    clear_buffer(buffer);
    fits?;
    fields::put_four(buffer, 0, factor);
    Ok(())
}

// Writes a job into a buffer of 32 bytes, by the same rules.
#[tactic(auto, using(crate::proofs::JobWriteLaws::job_passed, crate::proofs::JobWriteLaws::small_k), unfolding(crate::specs::JobWriting::job_buffer_of, crate::specs::Buffers::left_in))]
pub fn write_job(buffer: &mut [u8], j: Job) -> Result<(), Refusal>
    ensures answer { result ≡ job_refusal_of (length buffer.old) j }
    ensures buffer { buffer.new ≡ job_buffer_of (length buffer.old) j }
{
    let fits = job_refusal(buffer.len(), j);
    clear_buffer(buffer);
    fits?;
    put_job(buffer, j);
    Ok(())
}

// Whether a draft is written into a buffer of `bytes` bytes, or why not.
#[tactic(auto, unfolding(crate::specs::Writing::refusal_of))]
fn refusal_of(bytes: usize, d: Draft) -> Result<(), Refusal>
    ensures { result ≡ refusal_of bytes d }
{
    if bytes != LOG_BYTES {
        return Err(Refusal::Length);
    }
    if !records::one_to(3, d.kind) {
        return Err(Refusal::Form);
    }
    if !numbers_fit(d) {
        return Err(Refusal::Number);
    }
    if !place_fits(d) {
        return Err(Refusal::Place);
    }
    if !chain_fits(d) {
        return Err(Refusal::Chain);
    }
    Ok(())
}

fn numbers_fit(d: Draft) -> bool
    ensures { result ≡ numbers_fit d }
{
    d.kind == 3
        || metres::size(d.x) <= metres::MOST_CENTIMETRES
            && metres::size(d.y) <= metres::MOST_CENTIMETRES
}

fn place_fits(d: Draft) -> bool
    ensures { result ≡ place_fits d }
{
    d.kind != 2 || records::is_place(d.x, d.y)
}

fn chain_fits(d: Draft) -> bool
    ensures { result ≡ chain_fits d }
{
    d.kind != 1 || records::one_to(MOST_CHAINS, d.chain)
}

// A draft with 0 for what its kind does not use.
#[tactic(auto, unfolding(crate::specs::Writing::used_of))]
fn used(d: Draft) -> Draft
    ensures { result ≡ used_of d }
{
    match d.kind {
        1 => d,
        3 => Draft {
            chain: 0,
            x: 0,
            y: 0,
            ..d
        },
        _ => Draft { chain: 0, ..d },
    }
}

// Makes every byte of a buffer zero.
pub fn clear_buffer(buffer: &mut [u8])
    ensures { buffer.new ≡ replicate (length buffer.old) 0 }
{
    buffer.fill(0);
}

// Puts the bytes of a record into a buffer that is all zeros.
fn put(buffer: &mut [u8], d: Draft)
    requires { (buffer.old ≡ replicate log_bytes 0) × (d.kind < 256) × (d.chain < 256) }
    ensures { buffer.new ≡ record_bytes d }
{
    let x = in_metres(d.x);
    let y = in_metres(d.y);
    buffer[0] = d.kind as u8;
    buffer[1] = d.chain as u8;
    fields::put_four(buffer, 4, d.line);
    metres::put_number(buffer, 8, x);
    metres::put_number(buffer, 16, y);
}

fn in_metres(c: i64) -> f64
    ensures { result ≡ in_metres c }
{
    metres::metres(c).unwrap_or(0.0)
}

// Whether a chain is written into a buffer of `bytes` bytes, or why not.
#[tactic(auto, unfolding(crate::specs::ChainWriting::chain_refusal_of))]
fn chain_refusal(bytes: usize, c: Chain) -> Result<(), Refusal>
    ensures { result ≡ chain_refusal_of bytes c }
{
    if bytes != CHAIN_BYTES {
        return Err(Refusal::Length);
    }
    if !chart::sound(c) {
        return Err(Refusal::Chain);
    }
    Ok(())
}

// The same for a factor.
#[tactic(auto, unfolding(crate::specs::FactorWriting::factor_refusal_of))]
fn factor_refusal(bytes: usize, factor: u32) -> Result<(), Refusal>
    ensures { result ≡ factor_refusal_of bytes factor }
{
    if bytes != FACTOR_BYTES {
        return Err(Refusal::Length);
    }
    if !chart::is_factor(factor) {
        return Err(Refusal::Chain);
    }
    Ok(())
}

// The same for a job.
#[tactic(auto, unfolding(crate::specs::JobWriting::job_refusal_of))]
fn job_refusal(bytes: usize, j: Job) -> Result<(), Refusal>
    ensures { result ≡ job_refusal_of bytes j }
{
    if bytes != JOB_BYTES {
        return Err(Refusal::Length);
    }
    if !search::is_window(j.window) {
        return Err(Refusal::Window);
    }
    if j.tolerance > search::MOST_TOLERANCE {
        return Err(Refusal::Tolerance);
    }
    Ok(())
}

// Puts the bytes of a chain into a buffer that is all zeros.
fn put_chain(buffer: &mut [u8], c: Chain)
    requires { buffer.old ≡ replicate chain_bytes 0 }
    ensures { buffer.new ≡ bytes_of_chain c }
{
    put_place(buffer, 0, c.master);
    put_place(buffer, 8, c.a);
    put_place(buffer, 16, c.b);
}

// Puts the bytes of a job into a buffer that is all zeros.
fn put_job(buffer: &mut [u8], j: Job)
    requires { (buffer.old ≡ replicate job_bytes 0) × (j.window.k < 256) }
    ensures { buffer.new ≡ bytes_of_job j }
{
    put_place(buffer, 0, j.window.corner);
    buffer[8] = j.window.k as u8;
    fields::put_four(buffer, 12, j.tolerance);
    fields::put_eight(buffer, 16, j.allowance);
}

fn put_place(buffer: &mut [u8], at: usize, p: Place)
    requires { at + 8 ≤ length buffer.old }
    ensures { buffer.new ≡ put_place_at buffer.old at p }
{
    fields::put_four(buffer, at, p.easting);
    fields::put_four(buffer, at + 4, p.northing);
}
