//! A network to test with: two hosts, three routers and four devices, one of which can't be written. No two of its hosts
//! touch one byte, so that its report doesn't depend on who comes first.

/// Its bundle.
pub const EXAMPLE: &str =
    r#"{"version":1,"hosts":[{"name":"cpu0","id":0,"script":["wr 0x10000 3 000102030405060708090a0b0c0d0e0f101112131415161718191a1b1c1d1e1f","rd 0x10000 3 4","wp 0x20010 2 aabbccdd","rd 0x20010 2 1","add 0x30000 3 0100000000000000"]},{"name":"cpu1","id":1,"qos":3,"script":["swap 0x30008 2 78563412","wr 0x40000 0 ff","rd 0x40000 0 4","rd 0x50000 1 2","maxu 0x30008 2 00000080"]}],"routers":[{"name":"r0","routes":{"m0":"l2","m1":"l2","m2":"l3","rom":"l3"}},{"name":"r1","routes":{"m0":"l4","m1":"l5"}},{"name":"r2","side":1,"routes":{"m2":"l6","rom":"l7"}}],"devices":[{"name":"m0","base":"0x10000","pages":1},{"name":"m1","base":"0x20000","pages":1},{"name":"m2","base":"0x30000","pages":1},{"name":"rom","base":"0x40000","pages":1,"readonly":true,"image":"deadbeef"}],"links":[{"name":"l0","from":"cpu0","to":"r0","width":32,"capacity":8},{"name":"l1","from":"cpu1","to":"r0","width":32,"capacity":4},{"name":"l2","from":"r0","to":"r1","width":32,"capacity":4},{"name":"l3","from":"r0","to":"r2","width":32,"capacity":2},{"name":"l4","from":"r1","to":"m0","width":32,"capacity":8},{"name":"l5","from":"r1","to":"m1","width":32,"capacity":2},{"name":"l6","from":"r2","to":"m2","width":32,"capacity":1},{"name":"l7","from":"r2","to":"rom","width":32,"capacity":1}],"wire":"l3"}"#;

/// The same network with links of 8, 16 and 32 bytes, so that packets are cut and joined on their ways.
pub const NARROW_EXAMPLE: &str =
    r#"{"version":1,"hosts":[{"name":"cpu0","id":0,"script":["wr 0x10000 3 000102030405060708090a0b0c0d0e0f101112131415161718191a1b1c1d1e1f","rd 0x10000 3 4","wp 0x20010 2 aabbccdd","rd 0x20010 2 1","add 0x30000 3 0100000000000000"]},{"name":"cpu1","id":1,"qos":3,"script":["swap 0x30008 2 78563412","wr 0x40000 0 ff","rd 0x40000 0 4","rd 0x50000 1 2","maxu 0x30008 2 00000080"]}],"routers":[{"name":"r0","routes":{"m0":"l2","m1":"l2","m2":"l3","rom":"l3"}},{"name":"r1","routes":{"m0":"l4","m1":"l5"}},{"name":"r2","side":1,"routes":{"m2":"l6","rom":"l7"}}],"devices":[{"name":"m0","base":"0x10000","pages":1},{"name":"m1","base":"0x20000","pages":1},{"name":"m2","base":"0x30000","pages":1},{"name":"rom","base":"0x40000","pages":1,"readonly":true,"image":"deadbeef"}],"links":[{"name":"l0","from":"cpu0","to":"r0","width":32,"capacity":8},{"name":"l1","from":"cpu1","to":"r0","width":16,"capacity":4},{"name":"l2","from":"r0","to":"r1","width":16,"capacity":4},{"name":"l3","from":"r0","to":"r2","width":8,"capacity":2},{"name":"l4","from":"r1","to":"m0","width":32,"capacity":8},{"name":"l5","from":"r1","to":"m1","width":8,"capacity":2},{"name":"l6","from":"r2","to":"m2","width":16,"capacity":1},{"name":"l7","from":"r2","to":"rom","width":8,"capacity":1}],"wire":"l3"}"#;

/// The report of both, without the history: worked out by hand.
pub const EXAMPLE_REPORT: &str = "\
sb 1
host cpu0 5
t 0 ok -
t 1 ok 000102030405060708090a0b0c0d0e0f101112131415161718191a1b1c1d1e1f
t 2 posted -
t 3 ok aabbccdd
t 4 ok 0000000000000000
host cpu1 5
t 0 ok 00000000
t 1 deverr -
t 2 ok deadbeef
t 3 neterr 00000000
t 4 ok 78563412
device m0 1
m 00000 000102030405060708090a0b0c0d0e0f101112131415161718191a1b1c1d1e1f
device m1 1
m 00000 00000000000000000000000000000000aabbccdd000000000000000000000000
device m2 1
m 00000 0100000000000000000000800000000000000000000000000000000000000000
device rom 1
m 00000 deadbeef00000000000000000000000000000000000000000000000000000000
end
";
