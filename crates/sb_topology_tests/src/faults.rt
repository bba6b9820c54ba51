//! The first fault of each of many texts. Each is a bundle with some pieces replaced; what is wanted is from docs/formats.md.

use sb_topology::load;
use std::alloc::Global;
use std::test::Fail;

/// Two hosts at a router, which has a device and leads over the wire to a second router with another.
pub const BASE: &str =
    r#"{"version":1,"hosts":[{"name":"h0","id":0,"script":["rd 0x1000 0 1"]},{"name":"h1","id":1,"qos":15,"prot":3,"script":["wr 0x2000 0 00"]}],"routers":[{"name":"r0","routes":{"m0":"l2","m1":"l3"}},{"name":"r1","side":1,"routes":{"m1":"l4"}}],"devices":[{"name":"m0","base":"0x1000","pages":1},{"name":"m1","base":"8192","pages":1,"readonly":true,"image":"00fF"}],"links":[{"name":"l0","from":"h0","to":"r0","width":32,"capacity":1},{"name":"l1","from":"h1","to":"r0","width":32,"capacity":1024},{"name":"l2","from":"r0","to":"m0","width":32,"capacity":1},{"name":"l3","from":"r0","to":"r1","width":32,"capacity":1},{"name":"l4","from":"r1","to":"m1","width":32,"capacity":1}],"wire":"l3"}"#;

/// What the loader says, and of which text: pieces of the one above, and what stands in place of the first of each. ALL
/// is the whole text.
const TABLE: &str = r#"Json | {"version" => {version
Field { path: Path { text: "hosts[1].id" } } | "id":1 => "ide":1
Count { path: Path { text: "routers[1].side" } } | "side":1 => "side":2
Name { path: Path { text: "links[4].to" } } | "to":"m1" => "to":"m2"
HostId { host: 1 } | "id":1 => "id":0
Range { device: 0 } | "0x1000" => "0x1001"
Overlap { device: 1, other: 0 } | "8192" => "4096"
Width { link: 2 } | "to":"m0","width":32 => "to":"m0","width":12
End { link: 2 } | "wire":"l3" => "wire":"l2"
Backward { link: 5 } | }],"wire" => },{"name":"l5","from":"r1","to":"r1","width":32,"capacity":1}],"wire"
Unlinked { place: Host(2) } | }],"routers" => },{"name":"h2","id":2,"script":[]}],"routers"
Script { host: 1, line: 2, fault: Verb } | ["wr => ["","rw","wr
Route { router: 1, device: 1 } | "m1":"l4" =>
Json | "id":1 => "ide":1 | {"version" => {version
Field { path: Path { text: "hosts[1].id" } } | "side":1 => "side":2 | "id":1 => "ide":1
Count { path: Path { text: "routers[1].side" } } | "to":"m1" => "to":"m2" | "side":1 => "side":2
Name { path: Path { text: "links[4].to" } } | "id":1 => "id":0 | "to":"m1" => "to":"m2"
HostId { host: 1 } | "0x1000" => "0x1001" | "id":1 => "id":0
Range { device: 0 } | "8192" => "4096" | "0x1000" => "0x1001"
Overlap { device: 1, other: 0 } | "to":"m0","width":32 => "to":"m0","width":12 | "8192" => "4096"
Width { link: 2 } | "wire":"l3" => "wire":"l2" | "to":"m0","width":32 => "to":"m0","width":12
End { link: 2 } | }],"wire" => },{"name":"l5","from":"r1","to":"r1","width":32,"capacity":1}],"wire" | "wire":"l3" => "wire":"l2"
Backward { link: 5 } | }],"routers" => },{"name":"h2","id":2,"script":[]}],"routers" | }],"wire" => },{"name":"l5","from":"r1","to":"r1","width":32,"capacity":1}],"wire"
Unlinked { place: Host(2) } | ["wr => ["","rw","wr | }],"routers" => },{"name":"h2","id":2,"script":[]}],"routers"
Script { host: 1, line: 2, fault: Verb } | "m1":"l4" => | ["wr => ["","rw","wr
Field { path: Path { text: "-" } } | ALL => []
Field { path: Path { text: "-" } } | ALL => 7
Json | ALL =>
Json | "l3"} => "l3"}]
Json | "version":1, => "version":1,"z":1e999,
Field { path: Path { text: "version" } } | "version":1 => "version":1.0
Field { path: Path { text: "version" } } | "version":1 => "version":1e0
Field { path: Path { text: "version" } } | "version":1 => "version":-0
Field { path: Path { text: "version" } } | "version":1 => "version":18446744073709551616
Count { path: Path { text: "version" } } | "version":1 => "version":18446744073709551615
Field { path: Path { text: "version" } } | "version":1 => "version":"1"
Count { path: Path { text: "version" } } | "version":1 => "version":0
accepted | "version":1 => "version":7,"version":1
Field { path: Path { text: "hosts[0].qos" } } | "id":0 => "id":0,"qos":null
Field { path: Path { text: "wire" } } | "wire":"l3" => "wire":null
Field { path: Path { text: "hosts[1]" } } | {"name":"h1","id":1,"qos":15,"prot":3,"script":["wr 0x2000 0 00"]} => 1
Field { path: Path { text: "hosts[0].script[0]" } } | ["rd 0x1000 0 1"] => [1]
Field { path: Path { text: "hosts[0].script" } } | ["rd 0x1000 0 1"] => "rd"
Field { path: Path { text: "routers" } } | "routers":[ => "routers":{},"x":[
Field { path: Path { text: "routers[0].routes.m1" } } | "m1":"l3" => "m1":3
Field { path: Path { text: "routers[1].routes" } } | ,"routes":{"m1":"l4"} =>
Field { path: Path { text: "devices[0].base" } } | "0x1000" => 4096
Field { path: Path { text: "devices[0].base" } } | "0x1000" => "0X1000"
Field { path: Path { text: "devices[1].readonly" } } | true => 1
Field { path: Path { text: "devices[1].image" } } | "00fF" => "00f"
Field { path: Path { text: "devices[1].image" } } | "00fF" => "0g"
Field { path: Path { text: "links[2].a" } } | "to":"m0", => "to":"m0","b":1,"a":2,
Field { path: Path { text: "x" } } | "wire":"l3" => "x":1,"y":2
Field { path: Path { text: "" } } | "wire":"l3" => "":1,"y":2
Field { path: Path { text: "links[4].to" } } | "to":"m1", => "zz":1,
accepted | "id":1 => "id":31
Count { path: Path { text: "hosts[1].id" } } | "id":1 => "id":32
Count { path: Path { text: "hosts[1].qos" } } | "qos":15 => "qos":16
Count { path: Path { text: "hosts[1].prot" } } | "prot":3 => "prot":4
accepted | "base":"0x1000","pages":1 => "base":"0x100000","pages":256
Count { path: Path { text: "devices[0].pages" } } | "pages":1 => "pages":257
Count { path: Path { text: "devices[0].pages" } } | "pages":1 => "pages":0
Count { path: Path { text: "devices" } } | "pages":1 => "pages":18446744073709551615
Count { path: Path { text: "links[1].capacity" } } | 1024 => 1025
Count { path: Path { text: "links[0].capacity" } } | "capacity":1 => "capacity":0
accepted | "0x1000" => "0xfffffffffff000"
Range { device: 0 } | "0x1000","pages":1 => "0xfffffffffff000","pages":2
Range { device: 1 } | "8192" => "0xfffffffffffff000"
accepted | "width":32 => "width":8
accepted | "width":32 => "width":16
Width { link: 0 } | "width":32 => "width":0
Width { link: 0 } | "width":32 => "width":4
Width { link: 0 } | "width":32 => "width":24
Width { link: 0 } | "width":32 => "width":33
Width { link: 0 } | "width":32 => "width":64
Width { link: 0 } | "width":32 => "width":264
Width { link: 1 } | "width":32 => "width":8 | "width":32 => "width":12
Width { link: 0 } | "width":32 => "width":4294967328
Name { path: Path { text: "hosts[0].name" } } | "name":"h0" => "name":"H0"
Name { path: Path { text: "routers[0].name" } } | "name":"r0" => "name":"h1"
Name { path: Path { text: "devices[2].name" } } | "00fF"} => "00fF"},{"name":"r1","base":"0x10000","pages":1}
Name { path: Path { text: "links[1].name" } } | "name":"l1" => "name":"l0"
accepted | "name":"l0" => "name":"m0"
Name { path: Path { text: "hosts[0].name" } } | "name":"h0" => "name":"abcdefghijklmnopq"
Name { path: Path { text: "hosts[0].name" } } | "name":"h0" => "name":""
Name { path: Path { text: "links[0].from" } } | "from":"h0" => "from":"l1"
Name { path: Path { text: "routers[0].routes.m0" } } | "m0":"l2" => "m0":"l9"
Name { path: Path { text: "routers[0].routes.h0" } } | "m0":"l2" => "h0":"l2"
Name { path: Path { text: "wire" } } | "wire":"l3" => "wire":"r0"
Name { path: Path { text: "devices[0].name" } } | "m0":"l2" => "M":"l2" | "name":"m0" => "name":"M"
End { link: 0 } | "to":"r0" => "to":"h1"
End { link: 1 } | "from":"h1" => "from":"h0"
End { link: 4 } | "from":"r1","to":"m1" => "from":"r0","to":"m0"
End { link: 2 } | "from":"r0","to":"m0" => "from":"m0","to":"r0"
End { link: 3 } | "wire":"l3" => "wire":"l3" | "side":1 => "side":0
End { link: 3 } | ,"wire":"l3" =>
Unlinked { place: Device(2) } | "00fF"} => "00fF"},{"name":"m2","base":"0x10000","pages":1}
Route { router: 0, device: 1 } | "m1":"l3" => "m1":"l2"
Route { router: 0, device: 0 } | "m0":"l2" => "m0":"l4"
Route { router: 0, device: 1 } | ,"m1":"l3" =>
accepted | "m0":"l2", => | 0x1000 0 1 => 0x3000 0 1
Script { host: 0, line: 1, fault: Number } | rd 0x1000 0 1 => rd 0x1000 0 1\n
accepted | rd 0x1000 0 1 => rd 0x1000 0 1\r
Script { host: 0, line: 1, fault: Number } | rd 0x1000 0 1 => rd 0x1000 0 1\r\r"#;

/// A text with the first of some pieces replaced.
pub fn replaced(alloc: Global, text: &str, old: &str, new: &str) -> Result<String, Fail> {
    if old == "ALL" {
        return Ok(new.to_string(alloc)?);
    }
    let Some((before, behind)) = text.split_once(old) else {
        return Err("a piece that isn't there")?;
    };
    let mut changed = before.to_string(alloc)?;
    changed.push_str(new)?;
    changed.push_str(behind)?;
    Ok(changed)
}

/// What the loader says of a text.
pub fn told(alloc: Global, text: &str) -> Result<String, Fail> {
    told_of_bytes(alloc, text.as_bytes())
}

/// The same of any bytes.
pub fn told_of_bytes(alloc: Global, bytes: &[u8]) -> Result<String, Fail> {
    if bytes.len() > 67108864 {
        return Err("too long a text")?;
    }
    match load(alloc, bytes) {
        Ok(_bundle) => Ok("accepted".to_string(alloc)?),
        Err(fault) => Ok(format!(in alloc; "{fault:?}")?),
    }
}

/// What the loader says of the text of a row, behind what is wanted of it.
fn told_of_row(alloc: Global, edits: &str) -> Result<String, Fail> {
    let mut text = BASE.to_string(alloc)?;
    for edit in edits.split(" | ") {
        let Some((old, new)) = edit.split_once(" =>") else {
            return Err("no edit")?;
        };
        text = replaced(alloc, text.as_str(), old, new.trim_start())?;
    }
    told(alloc, text.as_str())
}

#[test]
fn first_faults(rt: HostRuntime) -> Result<(), Fail> {
    for row in TABLE.lines() {
        let Some((wanted, edits)) = row.split_once(" | ") else {
            return Err("no row")?;
        };
        assert_eq!(rt;
            told_of_row(rt.alloc(), edits)?.as_str(),
            wanted,
            "at {row}"
        );
    }
    Ok(())
}
