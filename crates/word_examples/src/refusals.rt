use fs_report::{Cause, MemSink, Status, say_refusal};
use log_model::{Damage, DamageWhy, Refusal};
use record_model::{DecodeFault, Why};
use std::alloc::Global;
use std::process::Abort;
use std::test::Fail;

// Damage in zone 0, at the record that begins with block 2.
fn damaged(why: DamageWhy) -> Cause<'static> {
    Cause::NoMount(Refusal::Damaged(Damage {
        zone: 0,
        block: 2,
        why,
    }))
}

// Whether the line of a cause is this one, and whether it ends so.
fn says(
    rt: &impl Abort,
    alloc: Global,
    cause: Cause<'_>,
    status: Status,
    line: &[u8],
) -> Result<(), Fail> {
    let mut err = MemSink::new(alloc, 100, Vec::new(alloc))?;
    let said = say_refusal(&mut err, "zenfs", cause);
    assert!(rt; said.is_ok());
    assert!(rt; err.bytes() == line);
    assert!(rt; cause.status() == status);
    Ok(())
}

#[test]
fn each_refusal_has_its_line_and_its_status(rt: HostRuntime) -> Result<(), Fail> {
    let alloc = rt.alloc();
    let sum = DamageWhy::Sum {
        stored: 0x00AB_CDEF,
        computed: 0xFEDC_BA98,
    };
    let fault = DamageWhy::Decode(DecodeFault {
        at: 17,
        why: Why::Missing(3),
    });
    let full = Cause::MetaFull {
        need: 9,
        capacity: 8,
    };
    let text: &[u8] =
        b"zenfs: damaged: zone 0 block 2: checksum stored 00abcdef computed fedcba98\n";
    says(&rt, alloc, damaged(sum), Status::Damaged, text)?;
    let text: &[u8] = b"zenfs: damaged: zone 0 block 2: record field 3 missing at 17\n";
    says(&rt, alloc, damaged(fault), Status::Damaged, text)?;
    let text: &[u8] = b"zenfs: damaged: zone 0 block 2: rule 9\n";
    says(
        &rt,
        alloc,
        damaged(DamageWhy::Rule(9)),
        Status::Damaged,
        text,
    )?;
    let text: &[u8] = b"zenfs: metadata full: 9 of 8 blocks\n";
    says(&rt, alloc, full, Status::Refused, text)?;
    let text: &[u8] = b"zenfs: a/b: exists\n";
    says(&rt, alloc, Cause::NameExists("a/b"), Status::Refused, text)?;
    let text: &[u8] = b"zenfs: out of memory\n";
    says(&rt, alloc, Cause::NoMemory, Status::Memory, text)
}
