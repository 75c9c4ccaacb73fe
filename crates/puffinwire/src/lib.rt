// The checker for programs in C and in Rust: a net is read, steps are fed to it, and what is left stands in the caller's memory.
#![tactic(auto)]

ghost use Rattle.std.specs.Prelude.{◌≡◌, Err};
ghost use Rattle.net.specs.States.{view};
ghost use Rattle.net.specs.Views.{drafted, Holds};
ghost use Rattle.house.specs.House.{house_width, taken_by_house};
ghost use Rattle.session.specs.Feeds.{meaning, fed};
ghost use Rattle.puffinwire.specs.Reports.{set_number, layer_number, report_of, reading_report, feed_report, feed_left, read_over, reduced_over, Leaves};

mod report;

use house::{HouseFault, house};
use net::{Draft, Layer, MOST_PLACES, Net, Position, Told};
pub use report::Report;
use session::{Session, SessionFault};
use stream::{ReadFault, read};

// The set of the flags that are true: bit p is that of place p.
fn set_of(flags: &[bool; MOST_PLACES]) -> u64
    ensures { result ≡ set_number flags.now }
{
    let mut set = 0;
    for flag in flags.iter().rev() {
        set = 2 * set + u64::from(*flag);
    }
    set
}

// The number of a layer; 0 is left for no layer.
fn layer_number(layer: Layer) -> u32
    ensures { result ≡ layer_number layer }
{
    match layer {
        Layer::Net => 1,
        Layer::Reader => 2,
        Layer::Book => 3,
        Layer::Session => 4,
    }
}

// What is told of the net that is left, the bytes of the net stream that were used, the steps taken, and the refusal.
fn report_on(net: &Net<'_>, used: usize, taken: usize, refusal: Option<Told>) -> Report
    ensures { result ≡ report_of (view net.now) used taken refusal }
{
    let at = refusal.map_or(Position::START, |told| told.origin.at);
    Report {
        used,
        taken,
        byte: at.byte,
        count: at.count,
        standing: set_of(&net.shape.standing),
        support: set_of(&net.shape.support),
        number: refusal.map_or(0, |told| u32::from(told.number)),
        layer: refusal.map_or(0, |told| layer_number(told.origin.layer)),
        // No `try_from`, since the cast loses nothing: a net has at most 96 transitions.
        transitions: net.shape.transitions as u32,
        question: net.shape.question.into(),
    }
}

// What is told of a reading that left this net.
fn reading_report(net: &Net<'_>, said: Result<usize, ReadFault>) -> Report
    ensures { result ≡ reading_report (view net.now) said }
{
    match said {
        Ok(used) => report_on(net, used, 0, None),
        Err(fault) => report_on(net, 0, 0, Some(fault.told())),
    }
}

// What is told of a feed that left this net.
fn feed_report(net: &Net<'_>, used: usize, said: Result<usize, SessionFault<HouseFault>>) -> Report
    ensures { result ≡ feed_report (view net.now) used said }
{
    match said {
        Ok(taken) => report_on(net, used, taken, None),
        Err(fault) => report_on(net, used, fault.origin.at.count, Some(fault.told())),
    }
}

// Reads a net stream into the sheet, and tells what came of it. The net that is left holds the sheet.
fn read_net<'a>(net: &[u8], sheet: &'a mut [u32], told: &mut Report) -> Net<'a>
    ensures exact { Leaves (view result).sheet told.new (read_over sheet.old net.now) }
    ensures lent { Holds sheet.entry result }
{
    let mut draft = Draft::start(sheet);
    let said = read(&mut draft, net);
    let left = draft.finish();
    *told = reading_report(&left, said);
    left
}

// Feeds the steps to a session with the house book, tells what came of it, and gives back the sheet.
fn feed_steps<'a>(draft: Draft<'a>, used: usize, steps: &[u8], told: &mut Report) -> &'a mut [u32]
    ensures exact { Leaves result.now told.new (feed_left used (fed (meaning house_width taken_by_house) (drafted draft.entry) steps.now)) }
    ensures lent { Holds result draft.entry.net }
{
    let mut session = Session::open(draft);
    let said = session.feed(&house(), steps);
    *told = feed_report(session.net(), used, said);
    session.close()
}

// Tells why a net stream was refused, and gives back the sheet.
fn refuse<'a>(draft: Draft<'a>, fault: ReadFault, told: &mut Report) -> &'a mut [u32]
    ensures exact { (result.now ≡ (drafted draft.entry).sheet) × (told.new ≡ reading_report (drafted draft.entry) (Err fault)) }
    ensures lent { Holds result draft.entry.net }
{
    let left = draft.finish();
    *told = reading_report(&left, Err(fault));
    let Net { sheet, .. } = left;
    sheet
}

// Reads a net stream into the sheet, feeds the steps to a session on this net, tells what came of it, and gives back the sheet.
fn reduce_net<'a>(
    net: &[u8],
    steps: &[u8],
    sheet: &'a mut [u32],
    told: &mut Report,
) -> &'a mut [u32]
    ensures exact { Leaves result.now told.new (reduced_over sheet.old net.now steps.now) }
    ensures lent { result.ghost_name ≡ sheet.entry.ghost_name }
{
    let mut draft = Draft::start(sheet);
    let said = read(&mut draft, net);
    match said {
        Ok(used) => feed_steps(draft, used, steps, told),
        Err(fault) => refuse(draft, fault, told),
    }
}

// Reads a net stream into the sheet. A refused stream leaves the empty net; a sheet of another size than 12,352 is left as it is.
#[unsafe(no_mangle)]
pub extern "C" fn puffinwire_read(net: &[u8], sheet: &mut [u32], told: &mut Report)
    ensures { Leaves sheet.new told.new (read_over sheet.old net.now) }
{
    let _ = read_net(net, sheet, told);
}

// Reads a net stream into the sheet, and reduces the net by the steps: it takes them in a row until one is refused.
#[unsafe(no_mangle)]
pub extern "C" fn puffinwire_reduce(net: &[u8], steps: &[u8], sheet: &mut [u32], told: &mut Report)
    ensures { Leaves sheet.new told.new (reduced_over sheet.old net.now steps.now) }
{
    let _ = reduce_net(net, steps, sheet, told);
}
