//! Accounts that are written out by hand.

ghost use Rattle.std.specs.Prelude.{◌≡◌, IfOk, length};

use account_core::{Ban, Evidence, Fact, Step};
use account_write::{Account, last_line};
use bit_list::Bits;
use circuits::{Pair, PortKind};
use claim_core::{Claim, Shape};
use cnf_core::{Log, LogLine};
use items::{Few, Items};
use net_core::{Matching, Side};
use std::alloc::{AllocError, Global};
use std::test::Fail;
use text_core::put_all;

/// Input 0 goes to input 1, input 1 to input 0 inverted, and the output to the output inverted.
fn crossed(alloc: Global) -> Result<Matching, AllocError>
    ensures inputs { IfOk result (λ matching. length matching.inputs ≡ 2) }
    ensures outputs { IfOk result (λ matching. length matching.outputs ≡ 1) }
{
    Ok(Matching {
        inputs: Items::from_slice(alloc, &[(1, false), (0, true)])?,
        outputs: Items::from_slice(alloc, &[(0, true)])?,
    })
}

/// A list of one thing.
fn one<T: Drop>(alloc: Global, item: T) -> Result<Items<T>, AllocError> {
    let mut items = Items::new(alloc);
    items.push(item)?;
    Ok(items)
}

/// A log of the empty line alone.
fn short_log(alloc: Global) -> Result<Log, AllocError> {
    let hints = Items::from_slice(alloc, &[4, 0])?;
    let clause = Items::new(alloc);
    let lines = one(alloc, LogLine { clause, hints })?;
    Ok(Log { lines })
}

/// The lines of an account up to the last one.
fn text_of(alloc: Global, account: &Account) -> Result<Vec<u8>, AllocError> {
    let mut text = Vec::new(alloc);
    put_all(account.lines(), &mut text)?;
    Ok(text)
}

/// Logs of which the second one is empty.
fn two_logs(alloc: Global) -> Result<Items<Log>, AllocError> {
    let mut logs = one(alloc, short_log(alloc)?)?;
    logs.push(Log {
        lines: Items::new(alloc),
    })?;
    logs.push(short_log(alloc)?)?;
    Ok(logs)
}

/// The account of the match with these logs.
fn crossed_account(alloc: Global, logs: Items<Log>) -> Result<Account, AllocError> {
    let matching = crossed(alloc)?;
    Account::of_match(alloc, &matching, logs)
}

#[test]
fn writes_a_match(rt: HostRuntime) -> Result<(), Fail> {
    let account = crossed_account(rt.alloc(), two_logs(rt.alloc())?)?;
    let mut text = text_of(rt.alloc(), &account)?;
    text.extend_from_slice(last_line())?;
    assert_eq!(rt;
        text.as_slice(),
        b"npnp 1\nmatch i0+1 i1-0 o0-0\nl : 4 0\nl : 4 0\nend\n".as_slice()
    );
    Ok(())
}

#[test]
fn writes_that_ports_differ(rt: HostRuntime) -> Result<(), Fail> {
    let account = Account::of_other_ports(rt.alloc())?;
    let text = text_of(rt.alloc(), &account)?;
    assert_eq!(rt; text.as_slice(), b"npnp 1\nnone ports\n".as_slice());
    Ok(())
}

/// A claim that fails.
fn failing(alloc: Global) -> Result<Fact, AllocError> {
    let claim = Claim {
        side: Side::First,
        output: 0,
        shape: Shape::Up(1),
    };
    let bits = Bits::from_slice(alloc, &[false, true])?;
    Ok(Fact {
        claim,
        evidence: Evidence::Fails(bits),
    })
}

/// A claim that holds.
fn holding(alloc: Global) -> Result<Fact, AllocError> {
    let claim = Claim {
        side: Side::Second,
        output: 0,
        shape: Shape::Down(0),
    };
    Ok(Fact {
        claim,
        evidence: Evidence::Holds(short_log(alloc)?),
    })
}

/// A ban of two facts.
fn mismatch(alloc: Global) -> Result<Ban, AllocError> {
    let pair = Pair {
        kind: PortKind::Output,
        from: 0,
        to: 0,
        flip: true,
    };
    Ok(Ban {
        pairs: Few::from_slice(alloc, &[pair])?,
        step: Step::Mismatch { fails: 0, holds: 1 },
    })
}

/// The refusal of these facts and the ban.
fn banning(alloc: Global, facts: Items<Fact>) -> Result<Account, AllocError> {
    let bans = one(alloc, mismatch(alloc)?)?;
    Account::of_refusal(alloc, facts, bans, 3)
}

/// Both facts.
fn two_facts(alloc: Global) -> Result<Items<Fact>, AllocError> {
    let mut facts = one(alloc, failing(alloc)?)?;
    facts.push(holding(alloc)?)?;
    Ok(facts)
}

#[test]
fn writes_a_refusal(rt: HostRuntime) -> Result<(), Fail> {
    let account = banning(rt.alloc(), two_facts(rt.alloc())?)?;
    let text = text_of(rt.alloc(), &account)?;
    assert_eq!(rt;
        text.as_slice(),
        b"npnp 1\nfails a 0 up 1 =01\nholds b 0 down 0\nl : 4 0\nban o0-0 : mismatch 0 1\nnone ban 3\n".as_slice()
    );
    Ok(())
}
