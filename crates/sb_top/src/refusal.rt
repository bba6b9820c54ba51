//! The lines that say why an input was refused.

ghost use Rattle.std.specs.Prelude.{◌≡◌, ◌∷◌, decimal, codes, map};
ghost use Rattle.sb_io.specs.Counts.{FaultsIncreased};
ghost use Rattle.sb_io.specs.Written.{Gains, GainsPart};
ghost use Rattle.sb_text.specs.TextLines.{text_line, word_text};
ghost use Rattle.sb_text.specs.declared.printed.Printed.TheVariants as printed;
ghost use Rattle.sb_top.specs.Refusals.{line_fault_text, load_fault_words, place_words, refusal_text, script_fault_words};

use sb_flow::Place;
use sb_io::Sink;
use sb_packet::Path;
use sb_text::{LineFault, LineWord, Printed, ScriptFault, print_line};
use sb_topology::LoadFault;

/// The name of a line's fault.
fn line_fault(fault: LineFault) -> LineWord<'static>
    ensures { word_text result ≡ line_fault_text fault }
{
    LineWord::Text(match fault {
        LineFault::Verb => b"verb",
        LineFault::Number => b"number",
        LineFault::Size => b"size",
        LineFault::Data => b"data",
        LineFault::Length => b"length",
        LineFault::Aligned => b"aligned",
        LineFault::Page => b"page",
        LineFault::Range => b"range",
        LineFault::Memory => b"memory",
    })
}

fn text(word: &'static str) -> LineWord<'static>
    ensures { word_text result ≡ word.now }
{
    LineWord::Text(word.as_bytes())
}

fn path_word(path: &Path) -> LineWord<'_>
    ensures { word_text result ≡ path.now }
{
    LineWord::Text(path.as_str().as_bytes())
}

/// The number of a place.
fn number(place: u8) -> LineWord<'static>
    ensures { word_text result ≡ decimal place }
{
    LineWord::Number(u64::from(place))
}

/// A count of lines, words or bytes.
fn count(n: u32) -> LineWord<'static>
    ensures { word_text result ≡ decimal n }
{
    LineWord::Number(u64::from(n))
}

/// Writes the line that says why a script was refused.
pub fn refuse_script<K: Sink>(sink: &mut K, fault: ScriptFault) -> Printed
    ensures done { result ≡ printed.Done → Gains (K.held sink.old) (K.held sink.new) (refusal_text (script_fault_words fault)) }
    ensures part { result ≡ printed.Failed → GainsPart (K.held sink.old) (K.held sink.new) (refusal_text (script_fault_words fault)) }
    ensures cause { result ≡ printed.Failed → FaultsIncreased (K.faults sink.old) (K.faults sink.new) }
    ensures clean { result ≡ printed.Done → K.faults sink.new ≡ K.faults sink.old }
{
    let refused = text("refused");
    match fault {
        ScriptFault::Lines { count: n } => print_line(sink, &[refused, text("lines"), count(n)]),
        ScriptFault::Line { line, fault } => {
            print_line(
                sink,
                &[refused, text("line"), count(line), line_fault(fault)],
            )
        }
        ScriptFault::Words { words } => print_line(sink, &[refused, text("words"), count(words)]),
        ScriptFault::Memory => print_line(sink, &[refused, text("memory")]),
    }
}

/// Writes the line that names a place of which a bundle has no link.
fn refuse_place<K: Sink>(sink: &mut K, place: Place) -> Printed
    ensures done { result ≡ printed.Done → Gains (K.held sink.old) (K.held sink.new)
        (refusal_text (codes "unlinked" ∷ place_words place)) }
    ensures part { result ≡ printed.Failed → GainsPart (K.held sink.old) (K.held sink.new)
        (refusal_text (codes "unlinked" ∷ place_words place)) }
    ensures cause { result ≡ printed.Failed → FaultsIncreased (K.faults sink.old) (K.faults sink.new) }
    ensures clean { result ≡ printed.Done → K.faults sink.new ≡ K.faults sink.old }
{
    let (kind, place) = match place {
        Place::Host(host) => ("host", host),
        Place::Router(router) => ("router", router),
        Place::Device(device) => ("device", device),
    };
    let words = [text("refused"), text("unlinked"), text(kind), number(place)];
    print_line(sink, &words)
}

/// Writes the line that says why a bundle was refused.
pub fn refuse_bundle<K: Sink>(sink: &mut K, fault: &LoadFault) -> Printed
    ensures done { result ≡ printed.Done → Gains (K.held sink.old) (K.held sink.new) (refusal_text (load_fault_words fault.now)) }
    ensures part { result ≡ printed.Failed → GainsPart (K.held sink.old) (K.held sink.new) (refusal_text (load_fault_words fault.now)) }
    ensures cause { result ≡ printed.Failed → FaultsIncreased (K.faults sink.old) (K.faults sink.new) }
    ensures clean { result ≡ printed.Done → K.faults sink.new ≡ K.faults sink.old }
{
    let refused = text("refused");
    match fault {
        LoadFault::Json => print_line(sink, &[refused, text("json")]),
        LoadFault::Field { path } => print_line(sink, &[refused, text("field"), path_word(path)]),
        LoadFault::Count { path } => print_line(sink, &[refused, text("count"), path_word(path)]),
        LoadFault::Name { path } => print_line(sink, &[refused, text("name"), path_word(path)]),
        LoadFault::HostId { host } => print_line(sink, &[refused, text("hostid"), number(*host)]),
        LoadFault::Range { device } => print_line(sink, &[refused, text("range"), number(*device)]),
        LoadFault::Overlap { device, other } => {
            print_line(
                sink,
                &[refused, text("overlap"), number(*device), number(*other)],
            )
        }
        LoadFault::Image { device, bytes } => {
            print_line(
                sink,
                &[refused, text("image"), number(*device), count(*bytes)],
            )
        }
        LoadFault::Width { link } => print_line(sink, &[refused, text("width"), number(*link)]),
        LoadFault::End { link } => print_line(sink, &[refused, text("end"), number(*link)]),
        LoadFault::Backward { link } => print_line(
            sink,
            &[refused, text("backward"), number(*link)],
        ),
        LoadFault::Unlinked { place } => refuse_place(sink, *place),
        LoadFault::Script { host, line, fault } => {
            let words = [
                refused,
                text("script"),
                number(*host),
                count(*line),
                line_fault(*fault),
            ];
            print_line(sink, &words)
        }
        LoadFault::Route { router, device } => {
            print_line(
                sink,
                &[refused, text("route"), number(*router), number(*device)],
            )
        }
        LoadFault::Budget { words } => print_line(sink, &[refused, text("budget"), count(*words)]),
        LoadFault::Memory => print_line(sink, &[refused, text("memory")]),
    }
}
