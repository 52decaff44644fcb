// Rows 1 to 5: what the first six bytes and the number of bytes say.
ghost use Rattle.std.specs.Prelude.{◌≤◌, ◌≡◌, length};
ghost use Rattle.model.specs.Reading.{too_short, wrong_length, wrong_version, out_of_range, wrong_count};
ghost use Rattle.board.specs.Refusals.{number_of};
ghost use Rattle.board.specs.Inner.{head_refusal};

use crate::input::{byte, is_wide, zone_from};
use crate::refusal::Refusal;

// Row 1: under 6 bytes.
#[tactic(auto, unfolding(model::specs::Reading::too_short))]
fn too_short(bytes: &[u8]) -> bool
    ensures { result ≡ too_short bytes.now }
{
    bytes.len() < 6
}

// Row 2: L isn't the count of bytes after it.
#[tactic(auto, unfolding(model::specs::Reading::wrong_length))]
fn wrong_length(bytes: &[u8]) -> bool
    requires { 6 ≤ length bytes.now }
    ensures { result ≡ wrong_length bytes.now }
{
    256 * byte(bytes, 0) + byte(bytes, 1) + 2 != bytes.len()
}

// Row 3: the version is neither 1 nor 2.
#[tactic(auto, unfolding(model::specs::Reading::wrong_version))]
fn wrong_version(bytes: &[u8]) -> bool
    requires { 6 ≤ length bytes.now }
    ensures { result ≡ wrong_version bytes.now }
{
    let version = byte(bytes, 2);
    version != 1 && version != 2
}

// Row 4: P, home or Z out of range.
#[tactic(auto, using(std::proofs::lemmas::Bool::Decides::nat_tests), unfolding(model::specs::Reading::out_of_range))]
fn out_of_range(bytes: &[u8]) -> bool
    requires { 6 ≤ length bytes.now }
    ensures { result ≡ out_of_range bytes.now }
{
    let points = byte(bytes, 3);
    let home = byte(bytes, 4);
    let zones = byte(bytes, 5);
    !(2..=64).contains(&points) || points <= home || !(2..=96).contains(&zones)
}

// Row 5: L isn't 4 + 4 × Z in version 1, 4 + 5 × Z in version 2.
#[tactic(auto, unfolding(model::specs::Reading::wrong_count))]
fn wrong_count(bytes: &[u8]) -> bool
    requires { 6 ≤ length bytes.now }
    ensures { result ≡ wrong_count bytes.now }
{
    let said = 256 * byte(bytes, 0) + byte(bytes, 1);
    let wide = is_wide(bytes);
    said + 2 != zone_from(wide, byte(bytes, 5))
}

// The rows in rising order: the first that holds.
#[tactic(auto, using(crate::proofs::Order::six), unfolding(crate::specs::Inner::head_refusal))]
pub fn check(bytes: &[u8]) -> Result<(), Refusal>
    ensures { number_of result ≡ head_refusal bytes.now }
{
    if too_short(bytes) {
        return Err(Refusal::TooShort);
    }
    if wrong_length(bytes) {
        return Err(Refusal::WrongLength);
    }
    if wrong_version(bytes) {
        return Err(Refusal::WrongVersion);
    }
    if out_of_range(bytes) {
        return Err(Refusal::OutOfRange);
    }
    if wrong_count(bytes) {
        return Err(Refusal::WrongCount);
    }
    Ok(())
}
