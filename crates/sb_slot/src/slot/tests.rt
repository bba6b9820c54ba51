//! Slots, and what is wrong with some, run.

ghost use Rattle.std.specs.Prelude.{◌≡◌, ◌<◌, IfOk};

use super::*;
use sb_word::{Op, WordFault};

const READ: [u64; 8] = [0x0000000110400061, 0x1000, 0x20000000800, 0, 0, 0, 0, 0];

const CLOSE: [u64; 8] = [0x0000000200000000, 0, 0, 0, 0, 0, 0, 0];

const WRITE: [u64; 8] = [
    0x0000000108400163,
    0x20,
    0x8000000000,
    0x0807060504030201,
    0x100f0e0d0c0b0a09,
    0,
    0,
    0,
];

/// The read of one word of 8 bytes that `READ` holds.
fn read() -> Item {
    Item::Packet(Packet {
        cmd: Cmd {
            op: Op::ReqRd,
            size: 3,
            len: 0,
            qos: 0,
            prot: 0,
            eom: true,
            eof: false,
            ex: false,
            tail: 0,
            host: 2,
        },
        dst: 0x1000,
        src: 0x20000000800,
        body: [0; 32],
    })
}

/// The write of two such words that `WRITE` holds.
fn write() -> Item {
    let body = [
        1, 2, 3, 4, 5, 6, 7, 8, 9, 10, 11, 12, 13, 14, 15, 16, 0, 0, 0, 0, 0, 0, 0, 0, 0, 0, 0, 0,
        0, 0, 0, 0,
    ];
    Item::Packet(Packet {
        cmd: Cmd {
            op: Op::ReqWr,
            size: 3,
            len: 1,
            qos: 0,
            prot: 0,
            eom: true,
            eof: false,
            ex: false,
            tail: 0,
            host: 1,
        },
        dst: 0x20,
        src: 0x8000000000,
        body,
    })
}

/// An item comes back from its slot.
fn there_and_back(item: &Item) -> Result<Item, ItemFault>
    ensures { result ≡ Ok item.now }
{
    from_slot(&to_slot(item))
}

/// A slot comes back from its item.
fn back_and_there(slot: &[u64; 8]) -> Result<[u64; 8], ItemFault>
    ensures { IfOk result (λ again. again ≡ slot.now) }
{
    let item = from_slot(slot)?;
    Ok(to_slot(&item))
}

#[test]
fn slots_and_faults(rt: HostRuntime) {
    assert_eq!(rt; to_slot(&read()), READ);
    assert_eq!(rt; from_slot(&READ), Ok(read()));
    assert_eq!(rt; to_slot(&Item::Close), CLOSE);
    assert_eq!(rt; from_slot(&CLOSE), Ok(Item::Close));
    let high = 1 << 56;
    let rows = [
        (0, 0x0000000310400061, 0, ItemFault::Flag { value: 3 }),
        (0, 0x0000000110400461, 0, ItemFault::Bytes { count: 40 }),
        (1, 0x1004, 0, ItemFault::Unaligned { address: 0x1004 }),
        (1, high, 0, ItemFault::Range { address: high }),
        (1, high - 8, 1, ItemFault::Reserved { value: 1 }),
        (3, 1, 1, ItemFault::Padding { at: 24 }),
        (6, 1 << 63, 1, ItemFault::Padding { at: 55 }),
        (7, 1, 1, ItemFault::Reserved { value: 1 }),
    ];
    for (place, number, last, fault) in rows {
        let mut slot = READ;
        slot[7] = last;
        slot[place] = number;
        assert_eq!(rt; from_slot(&slot), Err(fault), "at {number:#x}");
    }
    // the second address is out of range, and the first isn't a multiple of the word
    let both = [0x0000000110400061, 0x1004, high, 0, 0, 0, 0, 0];
    assert_eq!(rt; from_slot(&both), Err(ItemFault::Range { address: high }));
    assert_eq!(rt; to_slot(&write()), WRITE);
    assert_eq!(rt; from_slot(&WRITE), Ok(write()));
    assert_eq!(rt; there_and_back(&write()), Ok(write()));
    assert_eq!(rt; back_and_there(&WRITE), Ok(WRITE));
    // a byte behind the 16 that are written
    let more = [0x0000000108400163, 0x20, 0x8000000000, 0, 0, 0x11, 0, 0];
    assert_eq!(rt; from_slot(&more), Err(ItemFault::Padding { at: 40 }));
}

/// What becomes of `READ` where one bit of the first number is turned over.
fn word_fault_at(bit: u32) -> Option<ItemFault> {
    match bit {
        0 => Some(ItemFault::Word(WordFault::Invalid)),
        4 => Some(ItemFault::Word(WordFault::Opcode { value: 17 })),
        7 => Some(ItemFault::Word(WordFault::Size { value: 7 })),
        10..=15 => Some(ItemFault::Bytes {
            count: 8 + (8 << (bit - 8)),
        }),
        32..=63 => Some(ItemFault::Flag {
            value: 1 ^ (1 << (bit - 32)),
        }),
        _ => None,
    }
}

/// What becomes of `READ` where one bit of a number is turned over, which makes it that value.
fn read_fault_at(place: usize, bit: u32, value: u64) -> Option<ItemFault>
    requires place { place < 8 }
    requires bit { bit < 64 }
{
    match (place, bit) {
        (0, _) => word_fault_at(bit),
        (1 | 2, 0..=2) => Some(ItemFault::Unaligned { address: value }),
        (1 | 2, 56..=63) => Some(ItemFault::Range { address: value }),
        (1 | 2, _) => None,
        (7, _) => Some(ItemFault::Reserved { value }),
        _ => Some(ItemFault::Padding {
            at: (8 * place) as u8 + (bit / 8) as u8,
        }),
    }
}

/// What becomes of a Close where one bit of a number is turned over, which makes it that value.
fn close_fault_at(place: usize, bit: u32, value: u64) -> ItemFault
    requires place { place < 8 }
    requires bit { bit < 64 }
{
    match (place, bit) {
        (0, 32..=63) => ItemFault::Flag {
            value: 2 ^ (1 << (bit - 32)),
        },
        (7, _) => ItemFault::Reserved { value },
        _ => ItemFault::Padding {
            at: (8 * place) as u8 + (bit / 8) as u8,
        },
    }
}

/// The 512 bits of `READ`, and then those of a Close.
#[test]
fn each_bit_turned_over(rt: HostRuntime) {
    for turned in 0..1024usize {
        let is_close = turned >= 512;
        let place = turned / 64 % 8;
        let bit = (turned % 64) as u32;
        let mut slot = if is_close { CLOSE } else { READ };
        slot[place] ^= 1 << bit;
        let fault = if is_close {
            Some(close_fault_at(place, bit, slot[place]))
        } else {
            read_fault_at(place, bit, slot[place])
        };
        let found = from_slot(&slot);
        assert_eq!(rt; found.err(), fault, "at {turned}");
        if let Ok(item) = found {
            assert_eq!(rt; to_slot(&item), slot, "at {turned}");
        }
    }
}
