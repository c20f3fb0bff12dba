// The bounded response: a lent slice, and how many bytes of it are the response. Each call answers the length afterwards. C hands over the slice
// and the length, and a struct of both would be taken apart in each call.
#![tactic(auto)]

ghost use Rattle.std.specs.Prelude.{◌≡◌, [], ◌∷◌, ◌+◌, ◌-◌, ◌*◌, ◌/◌, ◌%◌, ◌≤◌, length, take, drop};
ghost use Rattle.std.proofs.lemmas.List.Edits.{sets};
ghost use Rattle.modbus.specs.Paper.{told, told_with, paper};
ghost use Rattle.response.specs.Bounded.{extended, resized, cut};

use modbus::ErrorKind;

pub fn push(response: &mut [u8], len: usize, value: u8) -> Result<usize, ErrorKind>
    ensures { (paper result, response.new) ≡ told_with response.old (extended response.old len (value ∷ [])) }
{
    if response.len() <= len {
        return Err(ErrorKind::OOB);
    }
    response[len] = value;
    Ok(len + 1)
}

// The bytes, 32 at most, go to the places of `dst` from `at` on. All are read before the first is written: so the compiler moves them at
// once. `copy_from_slice` is a call: a read of two registers over TCP takes 3 per cent more by it.
fn copy_block(dst: &mut [u8], at: usize, bytes: &[u8])
    requires { (length bytes.now ≤ 32) × (at + length bytes.now ≤ length dst.old) }
    ensures { dst.new ≡ sets dst.old at bytes.now }
{
    let mut block = [0u8; 32];
    for (i, b) in bytes.iter().enumerate() {
        block[i] = *b;
    }
    for (i, b) in block[..bytes.len()].iter().enumerate() {
        dst[at + i] = *b;
    }
}

// Of a length whose multiple of 2 * k is copied, the multiple of k is copied then: one more block of k bytes, or none.
fn copy_power(dst: &mut [u8], at: usize, src: &[u8], done: usize, k: usize) -> usize
    requires { (1 ≤ k) × (k ≤ 32) × (done ≡ length src.now / (k * 2) * (k * 2)) × (at + length src.now ≤ length dst.old) }
    ensures value { result ≡ length src.now / k * k }
    ensures dst_after { dst.new ≡ sets dst.old (at + done) (take (result - done) (drop done src.now)) }
{
    if src.len() / k % 2 == 0 {
        return done;
    }
    copy_block(dst, at + done, &src[done..done + k]);
    done + k
}

// The places of `dst` from `at` on become `src`: blocks of 32 bytes, and then one of each power of two that is left.
fn copy(dst: &mut [u8], at: usize, src: &[u8])
    requires { at + length src.now ≤ length dst.old }
    ensures { dst.new ≡ sets dst.old at src.now }
{
    for (k, block) in src.chunks_exact(32).enumerate() {
        copy_block(dst, at + 32 * k, block);
    }
    let a = copy_power(dst, at, src, src.len() / 32 * 32, 16);
    let b = copy_power(dst, at, src, a, 8);
    let c = copy_power(dst, at, src, b, 4);
    let d = copy_power(dst, at, src, c, 2);
    copy_power(dst, at, src, d, 1);
}

pub fn extend(response: &mut [u8], len: usize, other: &[u8]) -> Result<usize, ErrorKind>
    ensures { (paper result, response.new) ≡ told_with response.old (extended response.old len other.now) }
{
    if response.len() < len || response.len() - len < other.len() {
        return Err(ErrorKind::OOB);
    }
    copy(response, len, other);
    Ok(len + other.len())
}

pub fn resize(
    response: &mut [u8],
    len: usize,
    new_len: usize,
    value: u8,
) -> Result<usize, ErrorKind>
    ensures { (paper result, response.new) ≡ told_with response.old (resized response.old len new_len value) }
{
    if response.len() < len || response.len() < new_len {
        return Err(ErrorKind::OOB);
    }
    if len < new_len {
        response[len..new_len].fill(value);
    }
    Ok(new_len)
}

// Only the length changes, so the slice is lent to be looked at.
pub fn cut_end(response: &[u8], len: usize, n: usize) -> Result<usize, ErrorKind>
    ensures { paper result ≡ told (cut response.now len n) }
{
    if response.len() < len {
        return Err(ErrorKind::OOB);
    }
    Ok(len.saturating_sub(n))
}

pub fn clear(response: &[u8], len: usize) -> Result<usize, ErrorKind>
    ensures { paper result ≡ told (cut response.now len len) }
{
    cut_end(response, len, len)
}
