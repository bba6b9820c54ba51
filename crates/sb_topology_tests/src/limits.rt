//! Long texts, at the edges of what is taken and one past them.

use crate::faults::{BASE, replaced, told, told_of_bytes};
use std::alloc::Global;
use std::test::Fail;

/// A piece so many times over, between two others.
fn long(alloc: Global, head: &str, count: u32, piece: &str, end: &str) -> Result<String, Fail> {
    let mut text = head.to_string(alloc)?;
    for _ in 0..count {
        text.push_str(piece)?;
    }
    text.push_str(end)?;
    Ok(text)
}

/// What is told of the text with an image of so many bytes.
fn told_of_image(alloc: Global, text: &str, bytes: u32) -> Result<String, Fail> {
    let image = long(alloc, "\"", bytes, "0F", "\"")?;
    told(
        alloc,
        replaced(alloc, text, "\"00fF\"", image.as_str())?.as_str(),
    )
}

/// What is told of the text with a script of so many lines and one more.
fn told_of_lines(
    alloc: Global,
    text: &str,
    count: u32,
    line: &str,
    last: &str,
) -> Result<String, Fail> {
    let script = long(alloc, "[", count, line, last)?;
    told(
        alloc,
        replaced(alloc, text, "[\"rd 0x1000 0 1\"]", script.as_str())?.as_str(),
    )
}

#[test]
fn images(rt: HostRuntime) -> Result<(), Fail> {
    let alloc = rt.alloc();
    let overlap = replaced(alloc, BASE, "8192", "4096")?;
    let width = replaced(alloc, BASE, "\"width\":32", "\"width\":31")?;
    let fault = "Image { device: 1, bytes: 4097 }";
    assert_eq!(rt; told_of_image(alloc, BASE, 4096)?.as_str(), "accepted");
    assert_eq!(rt; told_of_image(alloc, BASE, 4097)?.as_str(), fault);
    assert_eq!(rt;
        told_of_image(alloc, overlap.as_str(), 4097)?.as_str(),
        "Overlap { device: 1, other: 0 }"
    );
    assert_eq!(rt; told_of_image(alloc, width.as_str(), 4097)?.as_str(), fault);
    Ok(())
}

#[test]
fn scripts(rt: HostRuntime) -> Result<(), Fail> {
    let alloc = rt.alloc();
    let line = "\"rd 0x1000 0 256\",";
    let route = replaced(alloc, BASE, "\"m0\":\"l2\"", "\"m0\":\"l4\"")?;
    let rows = [
        (BASE, 1023, line, "\"rd 0x1000 0 255\"]", "accepted"),
        (BASE, 1024, line, "\"\"]", "Budget { words: 262145 }"),
        (
            route.as_str(),
            1024,
            line,
            "\"\"]",
            "Route { router: 0, device: 0 }",
        ),
        (BASE, 65535, "\"#\",", "\"rd 0x1000 0 1\"]", "accepted"),
        (
            BASE,
            65536,
            "\"#\",",
            "\"x\"]",
            "Count { path: Path { text: \"hosts[0].script\" } }",
        ),
        (
            BASE,
            65535,
            "\"\",",
            "\"x\"]",
            "Script { host: 0, line: 65536, fault: Verb }",
        ),
    ];
    for (text, count, line, last, wanted) in rows {
        let told = told_of_lines(alloc, text, count, line, last)?;
        assert_eq!(rt; told.as_str(), wanted, "at {count} of {line}");
    }
    Ok(())
}

#[test]
fn json(rt: HostRuntime) -> Result<(), Fail> {
    let alloc = rt.alloc();
    let closed = long(alloc, "", 127, "]", "")?;
    let open = long(alloc, "", 127, "[", closed.as_str())?;
    let deeper = long(alloc, "[", 1, open.as_str(), "]")?;
    let whole = "Field { path: Path { text: \"-\" } }";
    assert_eq!(rt; told(alloc, open.as_str())?.as_str(), whole);
    assert_eq!(rt; told(alloc, deeper.as_str())?.as_str(), "Json");
    assert_eq!(rt; told_of_bytes(alloc, &[34, 255, 34])?.as_str(), "Json");
    Ok(())
}

/// What is told of the text with so many of an item before those of a list.
fn told_of_list(alloc: Global, list: &str, count: u32, item: &str) -> Result<String, Fail> {
    let longer = long(alloc, list, count, item, "")?;
    told(
        alloc,
        replaced(alloc, BASE, list, longer.as_str())?.as_str(),
    )
}

#[test]
fn lists(rt: HostRuntime) -> Result<(), Fail> {
    let alloc = rt.alloc();
    let rows = [
        (
            "hosts",
            "\"hosts\":[",
            30,
            "{\"name\":\"x\",\"id\":0,\"script\":[]},",
        ),
        (
            "routers",
            "\"routers\":[",
            30,
            "{\"name\":\"x\",\"routes\":{}},",
        ),
        (
            "devices",
            "\"devices\":[",
            30,
            "{\"name\":\"x\",\"base\":\"0\",\"pages\":1},",
        ),
        (
            "links",
            "\"links\":[",
            123,
            "{\"name\":\"x\",\"from\":\"h0\",\"to\":\"r0\",\"width\":32,\"capacity\":1},",
        ),
    ];
    for (name, list, count, item) in rows {
        let most = format!(in alloc; "Name {{ path: Path {{ text: \"{name}[1].name\" }} }}")?;
        let more = format!(in alloc; "Count {{ path: Path {{ text: \"{name}\" }} }}")?;
        assert_eq!(rt;
            told_of_list(alloc, list, count, item)?.as_str(),
            most.as_str()
        );
        assert_eq!(rt;
            told_of_list(alloc, list, count + 1, item)?.as_str(),
            more.as_str()
        );
    }
    Ok(())
}
