// The line that a program says where it is refused. It is written without taking memory.
ghost use Rattle.std.specs.Prelude.{◌≡◌, ◌++◌, ◌<◌, codes, decimal, OnOk, IsErr};
ghost use Rattle.zone_image.specs.Counts.{HasCause};
ghost use Rattle.command_model.specs.RefusalTexts.{cause_text, damage_text, fault_text, hex_digit, hex_digits, mount_text, refusal_text};
ghost use Rattle.fs_report.specs.Causes.{cause_meant};

use crate::cause::Cause;
use crate::sink::{Sink, SinkFault, write_all};
use itoa::Buffer;
use log_model::{Damage, DamageWhy, Refusal};
use record_model::Why;

/// Says why a program is refused, in one line that begins with the program's name. After a fault a part of the line may
/// be said.
pub fn say_refusal<E: Sink>(err: &mut E, program: &str, cause: Cause<'_>) -> Result<(), SinkFault>
    ensures said { OnOk result (E.tells → E.written err.new ≡ E.written err.old ++ refusal_text program.now (cause_meant cause.entry)) }
    ensures count { HasCause (E.faults err.old) (E.faults err.new) (IsErr result) }
{
    say_text(err, program)?;
    write_all(err, b": ")?;
    say_cause(err, cause)?;
    write_all(err, b"\n")?;
    Ok(())
}

// Says a text.
fn say_text<E: Sink>(err: &mut E, text: &str) -> Result<(), SinkFault>
    ensures said { OnOk result (E.tells → E.written err.new ≡ E.written err.old ++ text.now) }
    ensures count { HasCause (E.faults err.old) (E.faults err.new) (IsErr result) }
{
    write_all(err, text.as_bytes())?;
    Ok(())
}

// Says a cause.
fn say_cause<E: Sink>(err: &mut E, cause: Cause<'_>) -> Result<(), SinkFault>
    ensures said { OnOk result (E.tells → E.written err.new ≡ E.written err.old ++ cause_text (cause_meant cause.entry)) }
    ensures count { HasCause (E.faults err.old) (E.faults err.new) (IsErr result) }
{
    match cause {
        Cause::Words => write_all(err, b"bad command line"),
        Cause::DeviceFault => write_all(err, b"device fault"),
        Cause::OutputFault => write_all(err, b"output fault"),
        Cause::NoMemory => write_all(err, b"out of memory"),
        Cause::NotAnImage => write_all(err, b"not a zoned image"),
        Cause::ImageExists => write_all(err, b"image exists"),
        Cause::BadGeometry => write_all(err, b"bad geometry"),
        Cause::FsExists { zone } => say_numbered(err, b"file system exists in zone ", zone),
        Cause::NoMount(refusal) => say_no_mount(err, refusal),
        Cause::BadName(name) => say_named(err, name, b": bad name"),
        Cause::NotFound(name) => say_named(err, name, b": not found"),
        Cause::NameExists(name) => say_named(err, name, b": exists"),
        Cause::IdsEnd => write_all(err, b"file ids at their end"),
        Cause::SequenceEnd => write_all(err, b"sequence at its end"),
        Cause::MetaFull { need, capacity } => say_full(err, need, capacity),
        Cause::NoSpace => write_all(err, b"no space"),
    }
}

// Says a text, and a number behind it.
fn say_numbered<E: Sink>(err: &mut E, label: &[u8], number: u32) -> Result<(), SinkFault>
    ensures said { OnOk result (E.tells → E.written err.new ≡ E.written err.old ++ (label.now ++ decimal number)) }
    ensures count { HasCause (E.faults err.old) (E.faults err.new) (IsErr result) }
{
    let mut buffer = Buffer::new();
    write_all(err, label)?;
    write_all(err, buffer.format(number).as_bytes())?;
    Ok(())
}

// Says a name, and a text behind it.
fn say_named<E: Sink>(err: &mut E, name: &str, text: &[u8]) -> Result<(), SinkFault>
    ensures said { OnOk result (E.tells → E.written err.new ≡ E.written err.old ++ (name.now ++ text.now)) }
    ensures count { HasCause (E.faults err.old) (E.faults err.new) (IsErr result) }
{
    write_all(err, name.as_bytes())?;
    write_all(err, text)?;
    Ok(())
}

// Says how many blocks are needed, and how many there are.
fn say_full<E: Sink>(err: &mut E, need: u64, capacity: u32) -> Result<(), SinkFault>
    ensures said { OnOk result (E.tells → E.written err.new
        ≡ E.written err.old ++ (codes "metadata full: " ++ decimal need ++ codes " of " ++ decimal capacity ++ codes " blocks")) }
    ensures count { HasCause (E.faults err.old) (E.faults err.new) (IsErr result) }
{
    write_all(err, b"metadata full: ")?;
    say_large(err, need)?;
    say_numbered(err, b" of ", capacity)?;
    write_all(err, b" blocks")?;
    Ok(())
}

// Says a number.
fn say_large<E: Sink>(err: &mut E, number: u64) -> Result<(), SinkFault>
    ensures said { OnOk result (E.tells → E.written err.new ≡ E.written err.old ++ decimal number) }
    ensures count { HasCause (E.faults err.old) (E.faults err.new) (IsErr result) }
{
    let mut buffer = Buffer::new();
    write_all(err, buffer.format(number).as_bytes())?;
    Ok(())
}

// Says why an image doesn't mount.
fn say_no_mount<E: Sink>(err: &mut E, refusal: Refusal) -> Result<(), SinkFault>
    ensures said { OnOk result (E.tells → E.written err.new ≡ E.written err.old ++ mount_text refusal) }
    ensures count { HasCause (E.faults err.old) (E.faults err.new) (IsErr result) }
{
    match refusal {
        Refusal::NoFileSystem => write_all(err, b"no file system"),
        Refusal::Unsupported {
            zone,
            version,
            flags,
        } => say_unsupported(err, zone, version, flags),
        Refusal::Differs {
            zone,
            block,
            zone_blocks,
            zones,
        } => say_other_device(err, zone, block, zone_blocks, zones),
        Refusal::Damaged(damage) => say_damaged(err, damage),
    }
}

// Says which version and flags a superblock has.
fn say_unsupported<E: Sink>(
    err: &mut E,
    zone: u32,
    version: u32,
    flags: u32,
) -> Result<(), SinkFault>
    ensures said { OnOk result (E.tells → E.written err.new ≡ E.written err.old ++ mount_text (Refusal.Unsupported zone version flags)) }
    ensures count { HasCause (E.faults err.old) (E.faults err.new) (IsErr result) }
{
    say_numbered(err, b"zone ", zone)?;
    say_numbered(err, b": unsupported version ", version)?;
    say_numbered(err, b" flags ", flags)?;
    Ok(())
}

// Says of which device a superblock is.
fn say_other_device<E: Sink>(
    err: &mut E,
    zone: u32,
    block: u32,
    zone_blocks: u32,
    zones: u32,
) -> Result<(), SinkFault>
    ensures said { OnOk result (E.tells → E.written err.new ≡ E.written err.old ++ mount_text (Refusal.Differs zone block zone_blocks zones)) }
    ensures count { HasCause (E.faults err.old) (E.faults err.new) (IsErr result) }
{
    say_numbered(err, b"zone ", zone)?;
    say_numbered(err, b": superblock states block ", block)?;
    say_numbered(err, b" zone ", zone_blocks)?;
    say_numbered(err, b" count ", zones)?;
    Ok(())
}

// Says what is damaged, and where.
fn say_damaged<E: Sink>(err: &mut E, damage: Damage) -> Result<(), SinkFault>
    ensures said { OnOk result (E.tells → E.written err.new ≡ E.written err.old ++ mount_text (Refusal.Damaged damage)) }
    ensures count { HasCause (E.faults err.old) (E.faults err.new) (IsErr result) }
{
    say_numbered(err, b"damaged: zone ", damage.zone)?;
    say_numbered(err, b" block ", damage.block)?;
    write_all(err, b": ")?;
    say_damage(err, damage.why)?;
    Ok(())
}

// Says what is wrong with a record.
fn say_damage<E: Sink>(err: &mut E, why: DamageWhy) -> Result<(), SinkFault>
    ensures said { OnOk result (E.tells → E.written err.new ≡ E.written err.old ++ damage_text why) }
    ensures count { HasCause (E.faults err.old) (E.faults err.new) (IsErr result) }
{
    match why {
        DamageWhy::Sum { stored, computed } => say_checksums(err, stored, computed),
        DamageWhy::NoLength => write_all(err, b"no length"),
        DamageWhy::Text { at } => say_numbered(err, b"text at ", at),
        DamageWhy::Decode(fault) => say_fault(err, fault.at, fault.why),
        DamageWhy::Twin { sequence } => say_numbered(err, b"two logs of sequence ", sequence),
        DamageWhy::Rule(rule) => say_rule(err, rule),
    }
}

// Says which checksum a record states, and which it has.
fn say_checksums<E: Sink>(err: &mut E, stored: u32, computed: u32) -> Result<(), SinkFault>
    ensures said { OnOk result (E.tells → E.written err.new
        ≡ E.written err.old ++ (codes "checksum stored " ++ hex_digits 8 stored ++ codes " computed " ++ hex_digits 8 computed)) }
    ensures count { HasCause (E.faults err.old) (E.faults err.new) (IsErr result) }
{
    write_all(err, b"checksum stored ")?;
    say_hex(err, stored)?;
    write_all(err, b" computed ")?;
    say_hex(err, computed)?;
    Ok(())
}

// Says the eight hexadecimal digits of a number.
fn say_hex<E: Sink>(err: &mut E, number: u32) -> Result<(), SinkFault>
    ensures said { OnOk result (E.tells → E.written err.new ≡ E.written err.old ++ hex_digits 8 number) }
    ensures count { HasCause (E.faults err.old) (E.faults err.new) (IsErr result) }
{
    let digits = hex_digits(number);
    write_all(err, &digits)?;
    Ok(())
}

// The digit of a number below 16, in lower case.
fn hex_digit(number: u32) -> u8
    requires { number < 16 }
    ensures { result ≡ hex_digit number }
{
    if number < 10 {
        48 + number as u8
    } else {
        87 + number as u8
    }
}

// The eight hexadecimal digits of a number.
fn hex_digits(number: u32) -> [u8; 8]
    ensures { result ≡ hex_digits 8 number }
{
    let second = number / 16;
    let third = second / 16;
    let fourth = third / 16;
    let fifth = fourth / 16;
    let sixth = fifth / 16;
    let seventh = sixth / 16;
    let eighth = seventh / 16;
    [
        hex_digit(eighth % 16),
        hex_digit(seventh % 16),
        hex_digit(sixth % 16),
        hex_digit(fifth % 16),
        hex_digit(fourth % 16),
        hex_digit(third % 16),
        hex_digit(second % 16),
        hex_digit(number % 16),
    ]
}

// Says a fault of a record, and where it stands.
fn say_fault<E: Sink>(err: &mut E, at: u32, why: Why) -> Result<(), SinkFault>
    ensures said { OnOk result (E.tells → E.written err.new ≡ E.written err.old ++ fault_text at why) }
    ensures count { HasCause (E.faults err.old) (E.faults err.new) (IsErr result) }
{
    match why {
        Why::Short => say_numbered(err, b"record short at ", at),
        Why::Tag(tag) => say_tag(err, b"record tag ", tag, b" at ", at),
        Why::Twice(tag) => say_tag(err, b"record field ", tag, b" twice at ", at),
        Why::Missing(tag) => say_tag(err, b"record field ", tag, b" missing at ", at),
        Why::Range => say_numbered(err, b"record range at ", at),
    }
}

// Says a tag between two texts, and a place.
fn say_tag<E: Sink>(
    err: &mut E,
    label: &[u8],
    tag: u32,
    text: &[u8],
    at: u32,
) -> Result<(), SinkFault>
    ensures said { OnOk result (E.tells → E.written err.new ≡ E.written err.old ++ (label.now ++ decimal tag ++ text.now ++ decimal at)) }
    ensures count { HasCause (E.faults err.old) (E.faults err.new) (IsErr result) }
{
    say_numbered(err, label, tag)?;
    say_numbered(err, text, at)?;
    Ok(())
}

// Says which rule is broken.
fn say_rule<E: Sink>(err: &mut E, rule: u8) -> Result<(), SinkFault>
    ensures said { OnOk result (E.tells → E.written err.new ≡ E.written err.old ++ (codes "rule " ++ decimal rule)) }
    ensures count { HasCause (E.faults err.old) (E.faults err.new) (IsErr result) }
{
    let mut buffer = Buffer::new();
    write_all(err, b"rule ")?;
    write_all(err, buffer.format(rule).as_bytes())?;
    Ok(())
}
