// Property bytes read: a log record for each value.
#![tactic(auto)]

mod item;

ghost use Rattle.std.specs.Prelude.{◌≡◌};
ghost use Rattle.std.specs.Option.{is_some};
ghost use Rattle.laws.specs.Script.{out, run};
ghost use Rattle.event_log.specs.Values.{values};
ghost use Rattle.property_value.specs.Value.{placed};
ghost use Rattle.property_value.specs.Refused.{answer_of, answer_place, Told};
ghost use Rattle.property_reader.specs.Reading.{reading, bad_in, stopped, has_stopped, Read, listed};

use event_log::{Log, ValueLog, Values};
use item::property_at;
use property_value::{PropertyRefusal, usable_length};

// How many records the log then has; and whether the reading stopped after the column that the caller named, or why it was refused.
#[derive(Clone, Copy)]
pub struct PropertiesRead {
    pub count: usize,
    pub stopped: Result<bool, PropertyRefusal>,
}

// Reads the usable property bytes into a log. Where there is no column list, nothing.
// A stop is a number as in the C interface: one above 65,535 names no column.
pub fn read_properties(
    bytes: &[u8],
    columns: Option<&[u8]>,
    stop: u32,
    log: &mut [u8],
) -> PropertiesRead
    ensures log_value { let s = reading bytes.now (is_some columns.entry) (listed columns.entry) stop in
        run values s log.old 0 ≡ out (answer_of result.stopped) result.count log.new }
    ensures stopped_value { has_stopped result.stopped ≡ stopped stop (reading bytes.now (is_some columns.entry) (listed columns.entry) stop) (answer_of result.stopped) }
    ensures place_value { answer_place result.stopped ≡ placed (answer_of result.stopped) (bad_in bytes.now (is_some columns.entry) (listed columns.entry) stop) }
    ensures told { Told result.stopped }
{
    let Some(columns) = columns else {
        return PropertiesRead {
            count: 0,
            stopped: Ok(false),
        };
    };
    let end = usable_length(bytes.len());
    let mut values = Log::new(log, Values);
    let stopped = read_all(&bytes[0..end], columns, stop, &mut values);
    PropertiesRead {
        count: values.count(),
        stopped,
    }
}

fn read_all(
    bytes: &[u8],
    columns: &[u8],
    stop: u32,
    log: &mut ValueLog,
) -> Result<bool, PropertyRefusal>
    ensures { Read bytes.now columns.now stop log.old log.new result }
{
    let mut at = 0;
    while let Some(property) = property_at(bytes, columns, at)? {
        if let Some(value) = property.value {
            log.say(value)?;
            if value.column as u32 == stop {
                return Ok(true);
            }
        }
        at = property.next;
    }
    Ok(false)
}
