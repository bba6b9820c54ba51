//! The example network and that of `sb solo` are accepted: that their fields are those of the text is proved of it.

use crate::faults::told;
use std::test::Fail;

const EXAMPLE: &str =
    r#"{"version":1,"hosts":[{"name":"cpu0","id":0,"script":["wr 0x10000 3 000102030405060708090a0b0c0d0e0f101112131415161718191a1b1c1d1e1f","rd 0x10000 3 4","wp 0x20010 2 aabbccdd","rd 0x20010 2 1","add 0x30000 3 0100000000000000"]},{"name":"cpu1","id":1,"qos":3,"script":["swap 0x30008 2 78563412","wr 0x40000 0 ff","rd 0x40000 0 4","rd 0x50000 1 2","maxu 0x30008 2 00000080"]}],"routers":[{"name":"r0","routes":{"m0":"l2","m1":"l2","m2":"l3","rom":"l3"}},{"name":"r1","routes":{"m0":"l4","m1":"l5"}},{"name":"r2","side":1,"routes":{"m2":"l6","rom":"l7"}}],"devices":[{"name":"m0","base":"0x10000","pages":1},{"name":"m1","base":"0x20000","pages":1},{"name":"m2","base":"0x30000","pages":1},{"name":"rom","base":"0x40000","pages":1,"readonly":true,"image":"deadbeef"}],"links":[{"name":"l0","from":"cpu0","to":"r0","width":32,"capacity":8},{"name":"l1","from":"cpu1","to":"r0","width":16,"capacity":4},{"name":"l2","from":"r0","to":"r1","width":16,"capacity":4},{"name":"l3","from":"r0","to":"r2","width":8,"capacity":2},{"name":"l4","from":"r1","to":"m0","width":32,"capacity":8},{"name":"l5","from":"r1","to":"m1","width":8,"capacity":2},{"name":"l6","from":"r2","to":"m2","width":16,"capacity":1},{"name":"l7","from":"r2","to":"rom","width":8,"capacity":1}],"wire":"l3"}"#;

#[test]
fn example_is_accepted(rt: HostRuntime) -> Result<(), Fail> {
    assert_eq!(rt; told(rt.alloc(), EXAMPLE)?.as_str(), "accepted");
    Ok(())
}

// its network is that of `sb solo`: proofs/SoloBundle.antt
const SOLO: &str =
    r#"{"version":1,"hosts":[{"name":"host","id":0,"script":["wr 0x10 2 0102030405060708","rd 0x10 2 2"]}],"routers":[{"name":"hub","routes":{"mem":"dn"}}],"devices":[{"name":"mem","base":"0","pages":16}],"links":[{"name":"up","from":"host","to":"hub","width":32,"capacity":1},{"name":"dn","from":"hub","to":"mem","width":32,"capacity":1}]}"#;

#[test]
fn solo_is_accepted(rt: HostRuntime) -> Result<(), Fail> {
    assert_eq!(rt; told(rt.alloc(), SOLO)?.as_str(), "accepted");
    Ok(())
}
