//! The data of a workload before the first step.

ghost use Rattle.std.specs.Prelude.{◌≡◌, ◌++◌, IfOk, OnOk};
ghost use Rattle.workload.specs.Data as contents;

use crate::work::Work;
use el_base::NoMemory;
use std::alloc::Global;

/// What each account of a bank has at the start.
const BALANCE: u32 = 1_000;

/// The bytes from the start of the data on: the number, the digits, and a bank's balances. What is behind them is 0.
pub fn data(alloc: Global, kind: Work, number: u32) -> Result<Vec<u8>, NoMemory>
    ensures { IfOk result (λ bytes. bytes.items ≡ contents.data_of kind number) }
{
    let mut bytes = Vec::new(alloc);
    first_line(&mut bytes, number)?;
    later_lines(&mut bytes, kind)?;
    Ok(bytes)
}

/// The first line: the number, and the digits in its second quarter.
#[tactic(auto, unfolding(crate::specs::Data::first_line))]
fn first_line(bytes: &mut Vec<u8>, number: u32) -> Result<(), NoMemory>
    ensures { OnOk result (bytes.new.items ≡ bytes.old.items ++ contents.first_line number) }
{
    bytes.extend_from_slice(&number.to_le_bytes())?;
    bytes.extend_from_slice(&[0; 12])?;
    bytes.extend_from_slice(b"0123456789abcdef")?;
    bytes.extend_from_slice(&[0; 32])?;
    Ok(())
}

/// The lines behind the first, as far as a kind fills them.
#[tactic(auto, unfolding(crate::specs::Data::later_lines))]
fn later_lines(bytes: &mut Vec<u8>, kind: Work) -> Result<(), NoMemory>
    ensures { OnOk result (bytes.new.items ≡ bytes.old.items ++ contents.later_lines kind) }
{
    match kind {
        Work::Bank => balances(bytes),
        _ => Ok(()),
    }
}

/// The balances of a bank, behind lines of zeros.
#[tactic(auto, unfolding(crate::specs::Data::balances))]
fn balances(bytes: &mut Vec<u8>) -> Result<(), NoMemory>
    ensures { OnOk result (bytes.new.items ≡ bytes.old.items ++ contents.balances) }
{
    bytes.extend_from_slice(&[0; 1_152])?;
    accounts(bytes)
}

/// The 64 accounts.
#[tactic(auto, using(crate::proofs::Contents::no_accounts, crate::proofs::Contents::one_account_more))]
fn accounts(bytes: &mut Vec<u8>) -> Result<(), NoMemory>
    ensures { OnOk result (bytes.new.items ≡ bytes.old.items ++ contents.accounts 64) }
{
    for _account in 0..64_u32 {
        account(bytes)?;
    }
    Ok(())
}

/// The line of an account.
#[tactic(auto, unfolding(crate::specs::Data::account))]
fn account(bytes: &mut Vec<u8>) -> Result<(), NoMemory>
    ensures { OnOk result (bytes.new.items ≡ bytes.old.items ++ contents.account) }
{
    bytes.extend_from_slice(&BALANCE.to_le_bytes())?;
    bytes.extend_from_slice(&[0; 60])?;
    Ok(())
}
