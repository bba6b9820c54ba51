//! How a host holds its packets back while 64 answered transactions are under way.

ghost use Rattle.std.specs.Prelude.{IfOk, List};
ghost use Rattle.sb_packet.specs.Accesses.{Access};
ghost use Rattle.sb_host.specs.Progress.{HasComeTo, IsNextAimed};
ghost use Rattle.sb_host.specs.Rows.{IsTable};

use crate::script_plan::ScriptPlan;
use crate::tests::{bytes, read, write};
use crate::transactions::Transactions;
use sb_packet::{Kind, Packet};
use std::alloc::{AllocError, Global};
use std::test::Fail;

/// 65 reads of one packet each, all aimed at a device; before each of them a posted write, where they are wanted.
fn window_plan(alloc: Global, posted: bool) -> Result<ScriptPlan, AllocError> {
    let mut lines = Vec::new(alloc);
    for _ in 0..65u8 {
        if posted {
            lines.push(write(alloc, Kind::Posted, true)?)?;
        }
        lines.push(read(alloc, 4, true))?;
    }
    Ok(ScriptPlan {
        id: 1,
        qos: 0,
        prot: 0,
        lines,
    })
}

/// Issues packets until the next one waits for a slot, none is left, or so many are issued; says how many were.
fn issue_up_to(transactions: &mut Transactions, most: u32) -> u32
    requires come { HasComeTo transactions.old.asked transactions.old.next transactions.old.part }
    requires aimed { IsNextAimed transactions.old }
    requires table { (received : List Access) × IsTable transactions.old.asked received transactions.old.rows }
    ensures come { HasComeTo transactions.new.asked transactions.new.next transactions.new.part }
    ensures aimed { IsNextAimed transactions.new }
    ensures table { (received : List Access) × IsTable transactions.new.asked received transactions.new.rows }
{
    for count in 0..most {
        if !transactions.any_left() || transactions.waits_for().is_some() {
            return count;
        }
        let _packet = transactions.issue();
        transactions.pass_over();
    }
    most
}

/// Takes an answer.
fn answer(transactions: &mut Transactions, packet: &Packet)
    requires come { HasComeTo transactions.old.asked transactions.old.next transactions.old.part }
    requires aimed { IsNextAimed transactions.old }
    requires table { (received : List Access) × IsTable transactions.old.asked received transactions.old.rows }
    ensures come { HasComeTo transactions.new.asked transactions.new.next transactions.new.part }
    ensures aimed { IsNextAimed transactions.new }
    ensures table { (received : List Access) × IsTable transactions.new.asked received transactions.new.rows }
{
    transactions.take(packet);
}

/// Transactions of which none was issued.
fn begin(alloc: Global, posted: bool) -> Result<Transactions, AllocError>
    ensures come { IfOk result (λ t. HasComeTo t.asked t.next t.part) }
    ensures aimed { IfOk result IsNextAimed }
    ensures table { IfOk result (λ t. (received : List Access) × IsTable t.asked received t.rows) }
{
    let mut transactions = Transactions::new(alloc, window_plan(alloc, posted)?)?;
    transactions.pass_over();
    Ok(transactions)
}

#[test]
fn slots_are_taken_in_turn(rt: HostRuntime) -> Result<(), Fail> {
    let alloc = rt.alloc();
    let mut transactions = begin(alloc, false)?;
    assert_eq!(rt; issue_up_to(&mut transactions, 100), 64);
    assert_eq!(rt; transactions.waits_for(), Some(0));
    // the answer to transaction 1, and a stray, free nothing
    answer(&mut transactions, &bytes(2048, 0, 1));
    answer(&mut transactions, &bytes(64, 0, 1));
    assert_eq!(rt; transactions.waits_for(), Some(0));
    answer(&mut transactions, &bytes(0, 0, 1));
    assert_eq!(rt; transactions.waits_for(), None);
    assert_eq!(rt; issue_up_to(&mut transactions, 100), 1);
    assert_eq!(rt; transactions.any_left(), false);
    Ok(())
}

#[test]
fn posted_writes_take_no_slot(rt: HostRuntime) -> Result<(), Fail> {
    let alloc = rt.alloc();
    let mut transactions = begin(alloc, true)?;
    // 64 reads, and the 65 posted writes before them and behind
    assert_eq!(rt; issue_up_to(&mut transactions, 200), 129);
    assert_eq!(rt; transactions.waits_for(), Some(1));
    answer(&mut transactions, &bytes(2048, 0, 1));
    assert_eq!(rt; issue_up_to(&mut transactions, 200), 1);
    assert_eq!(rt; transactions.any_left(), false);
    Ok(())
}
