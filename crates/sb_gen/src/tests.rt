//! Bundles and summaries of three numbers, beside those of a generator in Python.

use crate::{Totals, gen_bundle, gen_totals, print_summary};
use sb_flow::HostPlan;
use sb_io::ByteSink;
use sb_packet::{Kind, Txn};
use sb_text::{Printed, read_line};
use std::alloc::Global;
use std::test::Fail;

/// What `bench/make_bundle gen` makes of a number: the words and bytes, a checksum over all parts of all transactions, and
/// the first line of each host's script.
struct Known {
    number: u32,
    totals: Totals,
    checksum: u64,
    lines: [&'static [u8]; 4],
}

const KNOWN: [Known; 3] = [
    Known {
        number: 0,
        totals: Totals {
            words: 44805,
            bytes: 169781,
        },
        checksum: 0x7268_2cac_ce12_b5e9,
        lines: [
            b"wp 0x20d6a7 0 bfc0c1c2c3",
            b"rd 0x30aa00 3 9",
            b"rd 0x108b88 2 7",
            b"swap 0x1089c5 0 8c",
        ],
    },
    Known {
        number: 7,
        totals: Totals {
            words: 45584,
            bytes: 171413,
        },
        checksum: 0xb02c_0d1c_4472_5a66,
        lines: [
            b"add 0x209818 3 5e5f606162636465",
            b"rd 0x406158 3 12",
            b"wr 0x40e228 2 f2f3f4f5f6f7f8f9fafbfcfdfeff000102030405060708090a0b0c0d0e0f101112131415161718191a1b1c1d1e1f2021",
            b"wr 0x20f0e6 0 a6a7a8a9aaabacadaeafb0b1b2b3b4b5",
        ],
    },
    Known {
        number: 4_294_967_295,
        totals: Totals {
            words: 45191,
            bytes: 168482,
        },
        checksum: 0xb5d4_b7fe_0629_4fc0,
        lines: [
            b"swap 0x10eb7f 0 3f",
            b"wp 0x302110 3 e9eaebecedeeeff0f1f2f3f4f5f6f7f8f9fafbfcfdfeff00",
            b"wr 0x30b01b 0 5e5f60616263646566676869",
            b"swap 0x2081a8 0 1e",
        ],
    },
];

/// A number more in a checksum.
fn checked(sum: u64, number: u64) -> u64 {
    sum.wrapping_mul(31).wrapping_add(number)
}

/// The number of a kind of transaction.
fn kind_number(kind: Kind) -> u64 {
    match kind {
        Kind::Read => 0,
        Kind::Write => 1,
        Kind::Posted => 2,
        Kind::Atomic(atomic) => 3 + u64::from(atomic.number()),
    }
}

/// All parts of a transaction in a checksum.
fn txn_checked(sum: u64, txn: &Txn) -> u64 {
    let mut sum = checked(sum, kind_number(txn.kind));
    sum = checked(sum, u64::from(txn.size));
    sum = checked(sum, txn.addr);
    sum = checked(sum, u64::from(txn.count));
    for byte in txn.body.as_slice() {
        sum = checked(sum, u64::from(*byte));
    }
    sum
}

/// The script of a host in a checksum.
fn host_checked(mut sum: u64, host: &HostPlan) -> u64 {
    for txn in host.script.as_slice() {
        sum = txn_checked(sum, txn);
    }
    sum
}

/// The checksum of all scripts.
fn checksum(hosts: &[HostPlan]) -> u64 {
    let mut sum = 0;
    for host in hosts {
        sum = host_checked(sum, host);
    }
    sum
}

/// The first transaction of a host, and the transaction that a line says, as texts.
fn first_beside(alloc: Global, host: &HostPlan, line: &[u8]) -> Result<(String, String), Fail> {
    let first = host.script.as_slice().first().ok_or("no transaction")?;
    match read_line(alloc, line) {
        Ok(Some(said)) => Ok((
            format!(in alloc; "{first:?}")?,
            format!(in alloc; "{said:?}")?,
        )),
        Ok(None) => Err(Fail::from("no line")),
        Err(_) => Err(Fail::from("a fault")),
    }
}

#[test]
fn bundles_are_those_of_python(rt: HostRuntime) -> Result<(), Fail> {
    let alloc = rt.alloc();
    for known in &KNOWN {
        let bundle = gen_bundle(alloc, known.number)?;
        assert_eq!(rt; gen_totals(known.number), known.totals);
        assert_eq!(rt; checksum(bundle.hosts.as_slice()), known.checksum);
        for (host, line) in bundle.hosts.iter().zip(known.lines) {
            let (first, said) = first_beside(alloc, host, line)?;
            assert_eq!(rt; first, said);
        }
    }
    Ok(())
}

/// A summary, whole and over a sink whose sixth call fails.
#[test]
fn summaries_are_printed(rt: HostRuntime) -> Result<(), Fail> {
    let text = b"gen 7\nhosts 4 transactions 8192\nwords 45584\nbytes 171413\ndone\n";
    let mut sink = ByteSink::new(rt.alloc(), 64, 8, &[])?;
    assert_eq!(rt; print_summary(&mut sink, 7), Printed::Done);
    assert_eq!(rt; sink.as_slice(), text.as_slice());

    let mut failing = ByteSink::new(rt.alloc(), 64, 8, &[5])?;
    assert_eq!(rt; print_summary(&mut failing, 7), Printed::Failed);
    assert_eq!(rt;
        failing.as_slice(),
        b"gen 7\nhosts 4 transactions 8192\n".as_slice()
    );
    Ok(())
}
