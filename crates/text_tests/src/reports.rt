//! Reports that no run of the program makes: one of no core, one of a bus, and one of timetables.
ghost use Rattle.std.specs.Prelude.{◌≤◌, length};

use access_log::{History, Item, Letter, Transaction};
use image_file::read_image;
use kmp_base::{Collected, MachineKind, MemorySink, Policy, Setup, Turns};
use mips_isa::{CoreState, Stop};
use report_print::print_report;
use report_read::read_report;
use report_text::{Counts, MemoryWord, NoMemory, Report};
use std::alloc::Global;
use std::test::Fail;
use timetable::{CoreEnd, End, Rows, TimeRow};

/// The image of `halt` in a memory of sixteen bytes.
const HALT: [u8; 24] = *b"KMP1\x02\0\0\0\x02\0\0\0\0\0\0\0\x0d\0\0\0\0\0\0\0";

fn report(alloc: Global, history: History) -> Result<Report, Fail> {
    let image = read_image(alloc, &HALT)?;
    Ok(Report {
        setup: Setup {
            machine: MachineKind::Full,
            cores: 1,
            budget: 1,
            policy: Policy::Fifo,
            turns: Turns::Round,
            seed: 0,
            sets: 1,
            ways: 1,
        },
        image,
        history,
        cores: Vec::new(alloc),
        words: Vec::new(alloc),
        counts: Counts { values: [0; 13] },
    })
}

/// Whether all of a report is put into a sink that fails at a call, and what it has then.
fn put_until(alloc: Global, report: &Report, call: u32) -> Result<(bool, Vec<u8>), NoMemory> {
    let calls = Vec::from_slice(alloc, &[call])?;
    let mut sink = MemorySink::new(alloc, 4096, calls)?;
    let is_put = print_report(report, &mut sink).is_ok();
    Ok((is_put, sink.held))
}

/// A write that fails leaves the rows before it.
#[test]
fn each_row_is_one_put(rt: HostRuntime) -> Result<(), Fail> {
    let report = report(rt.alloc(), History::new(rt.alloc(), 0)?)?;
    for call in 0..25 {
        let (is_put, held) = put_until(rt.alloc(), &report, call)?;
        let rows = held.iter().filter(|byte| **byte == b'\n').count();
        assert!(rt; !is_put);
        assert_eq!(rt; rows, call as usize);
        assert!(rt; rows == 0 || held.ends_with(b"\n"));
    }
    Ok(())
}

/// A report that is collected is few writes, and whichever of them fails, a front of its text is there.
#[test]
fn a_report_is_collected(rt: HostRuntime) -> Result<(), Fail> {
    let report = report(rt.alloc(), History::new(rt.alloc(), 0)?)?;
    let (_, whole) = put_until(rt.alloc(), &report, 25)?;
    for call in 0..8u32 {
        let sink = MemorySink::new(rt.alloc(), 1024, [call].to_vec(rt.alloc())?)?;
        let Ok(mut collected) = Collected::new(rt.alloc(), 64, sink) else {
            return Err(Fail::new("no memory"));
        };
        let is_put = print_report(&report, &mut collected).is_ok();
        let (sink, finished) = collected.finish();
        let writes = whole.len().div_ceil(64);
        assert!(rt; (is_put && finished.is_ok()) == (writes <= call as usize));
        assert!(rt; whole.starts_with(&sink.held));
    }
    Ok(())
}

/// Whether a text is read as a report, and printed again as it was.
fn is_read_back(alloc: Global, text: &[u8]) -> Result<bool, NoMemory>
    requires short { length text.now ≤ 4096 }
{
    let Ok(read) = read_report(alloc, text) else {
        return Ok(false);
    };
    let (is_put, held) = put_until(alloc, &read, 1000)?;
    Ok(is_put && held.as_slice() == text)
}

/// The report of a core with caches of one line a set: a line that it stored to makes room for another.
const EVICTED: &str = "\
kmp-report 1
machine full
cores 1
budget 20000
arbitration fifo
turns round
seed 0
sets 4
ways 1
image 128
I 4b4d50310020000008000000010000000000083c0001083507000924000009ad
I 20000a8d40000b8d00000c8d0d00000000010000120000000000000000000000
I 0000000000000000000000000000000000000000000000000000000000000000
I 0000000000000000000000000000000000000000000000000000000000000000
B 0 0 0 0000 - - E
B 0 1 0 0000 - - E
B 0 2 0 0000 - - E
B 1 32 1 0000 - - M
A 0 3 sw 00000100 00000000 00000007
B 0 3 0 0000 - - E
B 1 36 0 0000 - 32 E
A 0 4 lw 00000120 00000000 -
B 1 40 0 0000 - 36 E
A 0 5 lw 00000140 00000000 -
B 1 32 0 0000 - 40 E
A 0 6 lw 00000100 00000007 -
C 0 halt 17 7 00000020 0000001c
R 0 0 00000000 00000000 00000000 00000000 00000000 00000001 00000000 00000000
R 0 8 00000100 00000007 00000000 00000000 00000007 00000000 00000000 00000000
R 0 16 00000000 00000000 00000000 00000000 00000000 00000000 00000000 00000000
R 0 24 00000000 00000000 00000000 00000000 00000000 00000000 00000000 00000000
W 00000100 00000007
T 0 0 2 2 3 4 - 5 6
T 0 1 3 3 4 5 - 6 7
T 0 2 5 5 6 7 - 8 9
T 0 3 6 6 7 8 10 10 11
T 0 4 8 8 9 10 12 12 13
T 0 5 9 9 10 12 14 14 15
T 0 6 11 11 12 14 16 16 17
T 0 7 12 12 14 16 - 17 -
N retired 7
N loads 3
N stores 1
N cas 0
N swapped 0
N transactions 8
N exclusive 1
N owned 0
N upgrades 0
N flushes 1
N wait-fetch 4
N wait-operand 0
N wait-access 4
end
";

/// The report of a machine with caches has rows of transactions, and is read.
#[test]
fn transactions_are_read(rt: HostRuntime) -> Result<(), Fail> {
    assert!(rt; is_read_back(rt.alloc(), EVICTED.as_bytes())?);
    Ok(())
}

/// A row of a timetable, by the first stages, the access, and the last stages.
fn timed([i, f, d, e]: [u32; 4], a: Option<u32>, m: u32, w: Option<u32>) -> TimeRow {
    TimeRow {
        i,
        f,
        d,
        e,
        a,
        m,
        w,
    }
}

/// How a core ended at a `halt`, with these rows of its timetable.
fn halted(rows: Vec<TimeRow>) -> CoreEnd
    requires few { length rows.items ≤ 8 }
{
    CoreEnd {
        end: End::Stopped(Stop::Halt),
        cycles: 9,
        retired: 3,
        state: CoreState {
            pc: 16,
            dpc: 12,
            regs: [0; 32],
        },
        rows: Rows::from_vec(rows),
    }
}

/// The report of two cores with timetables.
const TIMED: &str = "\
kmp-report 1
machine pipe
cores 2
budget 20000
arbitration fifo
turns round
seed 0
sets 1
ways 1
image 24
I 4b4d50310200000002000000000000000d00000000000000
C 0 halt 9 3 00000010 0000000c
R 0 0 00000000 00000000 00000000 00000000 00000000 00000000 00000000 00000000
R 0 8 00000000 00000000 00000000 00000000 00000000 00000000 00000000 00000000
R 0 16 00000000 00000000 00000000 00000000 00000000 00000000 00000000 00000000
R 0 24 00000000 00000000 00000000 00000000 00000000 00000000 00000000 00000000
C 1 halt 9 3 00000010 0000000c
R 1 0 00000000 00000000 00000000 00000000 00000000 00000000 00000000 00000000
R 1 8 00000000 00000000 00000000 00000000 00000000 00000000 00000000 00000000
R 1 16 00000000 00000000 00000000 00000000 00000000 00000000 00000000 00000000
R 1 24 00000000 00000000 00000000 00000000 00000000 00000000 00000000 00000000
W 0000000c 00000005
T 0 0 1 1 2 3 4 4 5
T 0 1 2 2 5 6 - 7 8
T 0 2 3 5 6 7 - 8 9
T 0 3 6 6 7 8 - 9 -
T 1 0 1 1 2 3 - 4 5
T 1 1 2 2 3 4 - 5 -
N retired 0
N loads 0
N stores 0
N cas 0
N swapped 0
N transactions 0
N exclusive 0
N owned 0
N upgrades 0
N flushes 0
N wait-fetch 0
N wait-operand 0
N wait-access 0
end
";

/// Timetables stand behind the memory words, those of each core from its instruction 0 on, and with
/// ample memory they are read there.
#[test]
fn timetables_have_their_rows(rt: HostRuntime) -> Result<(), Fail> {
    let first = [
        timed([1, 1, 2, 3], Some(4), 4, Some(5)),
        timed([2, 2, 5, 6], None, 7, Some(8)),
        timed([3, 5, 6, 7], None, 8, Some(9)),
        timed([6, 6, 7, 8], None, 9, None),
    ];
    let second = [
        timed([1, 1, 2, 3], None, 4, Some(5)),
        timed([2, 2, 3, 4], None, 5, None),
    ];
    let mut report = report(rt.alloc(), History::new(rt.alloc(), 0)?)?;
    report.setup.machine = MachineKind::Pipe;
    report.setup.cores = 2;
    report.setup.budget = 20_000;
    report.cores.push(halted(first.to_vec(rt.alloc())?))?;
    report.cores.push(halted(second.to_vec(rt.alloc())?))?;
    report.words.push(MemoryWord { addr: 12, value: 5 })?;
    let (is_put, held) = put_until(rt.alloc(), &report, 1000)?;
    assert!(rt; is_put);
    assert!(rt; held.as_slice() == TIMED.as_bytes());
    assert!(rt; is_read_back(rt.alloc(), TIMED.as_bytes())?);
    Ok(())
}

fn has_row(text: &[u8], row: &[u8]) -> bool {
    text.split(|byte| *byte == b'\n').any(|it| it == row)
}

/// A transaction with a cache that intervenes and a victim, and one with neither.
#[test]
fn transactions_have_their_rows(rt: HostRuntime) -> Result<(), Fail> {
    let owned = Transaction {
        master: 3,
        line: 64,
        im: true,
        ch: 5,
        di: Some(1),
        victim: Some(12),
        letter: Letter::M,
    };
    let alone = Transaction {
        master: 0,
        line: 1,
        im: false,
        ch: 0,
        di: None,
        victim: None,
        letter: Letter::E,
    };
    let mut history = History::new(rt.alloc(), 2)?;
    history.push(Item::Bus(owned));
    history.push(Item::Bus(alone));
    let report = report(rt.alloc(), history)?;
    let (is_put, held) = put_until(rt.alloc(), &report, 27)?;
    assert!(rt; is_put);
    assert!(rt; has_row(&held, b"machine full"));
    assert!(rt; has_row(&held, b"B 3 64 1 0005 1 12 M"));
    assert!(rt; has_row(&held, b"B 0 1 0 0000 - - E"));
    Ok(())
}
