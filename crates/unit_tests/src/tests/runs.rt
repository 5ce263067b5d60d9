//! Programs that are woven, and then run over devices, by workers that pass a gate. What needs no device of its own is told in
//! tests/workers, through the built program.

ghost use Rattle.std.specs.Prelude.{◌≡◌, [], IfOk};
ghost use Rattle.api_shelf.specs.Shelf.{AllAreSilent, views};
ghost use Rattle.api_shelf.specs.Telling.{HasLog};

use crate::bytes::bytes_of;
use api_listing::{ApiAnswer, ApiCall};
use api_shelf::{ApiDevice, DeviceFault, Fused, Scripted, SlotOf};
use guest_runner::{DeviceStop, FreeGate, Gate, RunStop};
use inliner_tool::{RunAnswer, Status, run_tool};
use mon_base::{Bytes, List, NoMemory};
use mon_store::{MemSink, MemStore, names_differ};
use std::alloc::Global;
use std::sync::Wait;
use std::sync::atomic::{AtomicU32, Ordering};
use std::test::Fail;
use std::thread::Threads;

const LISTING: &[u8] = b"class api/Net extends java/lang/Object\nstatic api/Net send ()V\n";

/// At most three sends.
const THREE: &[u8] =
    b"MAXINT 1000 SCOPE Session SECURITY STATE int n = 0; BEFORE void api.Net.send() PERFORM n <= 2 -> { n = n + 1; }";

/// The class `a/S`, whose `main` sends twice.
const SENDS: [&str; 3] = [
    "cafebabe00000031000e010003612f530700010100106a6176612f6c616e672f4f626a6563740700030100076170692f4e657407000501000473656e",
    "640100032829560c000700080a000600090100046d61696e010016285b4c6a6176612f6c616e672f537472696e673b2956010004436f646500210002",
    "00040000000000010009000b000c0001000d000000130000000100000007b8000ab8000ab1000000000000",
];

/// The class `a/N` in three parts, with a thousand `nop` between two of them: `main` starts a thread of this class, and goes on with
/// a thousand; the thread has a thousand, too.
const IDLES: [&[&str]; 3] = [
    &[
        "cafebabe000000310011010003612f4e0700010100106a6176612f6c616e672f5468726561640700030100063c696e69743e0100032829560c000500",
        "060a0002000701000573746172740c000900060a0002000a0100046d61696e010016285b4c6a6176612f6c616e672f537472696e673b295601000443",
        "6f64650a0004000701000372756e0021000200040000000000030009000c000d0001000e000003ff00020001000003f3bb000259b70008b6000b",
    ],
    &[
        "b1000000000001000500060001000e0000001100010001000000052ab7000fb1000000000001001000060001000e000003f500000001000003e9",
    ],
    &["b1000000000000"],
];

// ---- a call of the tool

fn words_of(alloc: Global, words: &[&[u8]]) -> Result<List<Bytes>, NoMemory> {
    let mut list = List::new(alloc);
    for word in words {
        list.push(Bytes::from_slice(alloc, word)?)?;
    }
    Ok(list)
}

fn push_file(
    list: &mut List<(Bytes, Bytes)>,
    alloc: Global,
    name: &[u8],
    bytes: &[u8],
) -> Result<(), NoMemory> {
    let name = Bytes::from_slice(alloc, name)?;
    let bytes = Bytes::from_slice(alloc, bytes)?;
    list.push((name, bytes))
}

/// A store with the listing, the policy and this class.
fn store_of(alloc: Global, class: &[u8]) -> Result<MemStore, Fail> {
    let mut files = List::new(alloc);
    push_file(&mut files, alloc, b"listing", LISTING)?;
    push_file(&mut files, alloc, b"policy", THREE)?;
    push_file(&mut files, alloc, b"class", class)?;
    if !names_differ(files.as_slice()) {
        return Err(Fail::new("two files of a name"));
    }
    Ok(MemStore::new(files, List::new(alloc)))
}

/// Weaves the class of the store, whose name is given.
fn weave<R: Threads + Wait + Sync>(
    rt: &R,
    alloc: Global,
    store: &mut MemStore,
    main: &[u8],
) -> Result<Status, Fail> {
    let words: [&[u8]; 7] = [
        b"inline", b"policy", b"listing", main, b"out", b"auto", b"class",
    ];
    let words = words_of(alloc, &words)?;
    let mut out = MemSink::new(List::new(alloc));
    let slots = Vec::<SlotOf<Fused>>::new(alloc);
    let mut kept = None;
    let status = run_tool(
        rt,
        alloc,
        words.as_slice(),
        store,
        &mut out,
        slots,
        &FreeGate,
        &mut kept,
    );
    drop(kept);
    Ok(status)
}

/// What a run came to: its status, what was printed, and of a book that a device stopped how many steps it has, and whether the
/// kept answer is this number.
#[derive(Drop)]
struct Ran {
    status: u8,
    printed: Bytes,
    stopped_at: Option<usize>,
    keeps_five: bool,
}

/// How many steps the kept book has, if a device stopped it.
fn stopped_at<D: ApiDevice>(kept: &Option<RunAnswer<D>>) -> Option<usize> {
    match kept {
        Some(Err(RunStop::Device { book })) => Some(book.lines().len()),
        _ => None,
    }
}

/// Whether the kept book was stopped by the answer 5 to a call of thread 0.
fn keeps_five<D: ApiDevice>(kept: &Option<RunAnswer<D>>) -> bool {
    match kept {
        Some(Err(RunStop::Device { book })) => match book.stop() {
            Some(DeviceStop::Kind { thread, answer, .. }) => {
                *thread == 0 && *answer == ApiAnswer::Int(5)
            }
            _ => false,
        },
        _ => false,
    }
}

/// Runs what was woven of the class `main`, which stands in the file of this name, by two workers.
fn run_woven<D: ApiDevice + Send, G: Gate + Sync, R: Threads + Wait + Sync>(
    rt: &R,
    alloc: Global,
    store: &mut MemStore,
    main: &[u8],
    file: &[u8],
    slots: Vec<SlotOf<D>>,
    gate: &G,
) -> Result<Ran, Fail>
    requires { AllAreSilent (views D.told D.faults slots.items) }
{
    let words: [&[u8]; 9] = [
        b"run",
        b"policy",
        b"listing",
        b"out/certificate",
        main,
        b"2",
        b"100000",
        file,
        b"out/conspec/State.class",
    ];
    let words = words_of(alloc, &words)?;
    let mut out = MemSink::new(List::new(alloc));
    let mut kept = None;
    let status = run_tool(
        rt,
        alloc,
        words.as_slice(),
        store,
        &mut out,
        slots,
        gate,
        &mut kept,
    );
    let (stopped_at, keeps_five) = (stopped_at(&kept), keeps_five(&kept));
    drop(kept);
    Ok(Ran {
        status: status.code(),
        printed: out.text().copy(alloc)?,
        stopped_at,
        keeps_five,
    })
}

/// A slot of the class `api/Net`.
fn slot_of<D: ApiDevice>(alloc: Global, device: D) -> Result<SlotOf<D>, NoMemory>
    ensures { IfOk result (λ slot. slot.device ≡ device) }
{
    let class = Bytes::from_slice(alloc, b"api/Net")?;
    Ok(SlotOf { class, device })
}

/// The class `api/Net` with this device, which has told nothing.
fn one_slot<D: ApiDevice>(alloc: Global, device: D) -> Result<Vec<SlotOf<D>>, NoMemory>
    requires { HasLog (D.told device) [] }
    ensures { IfOk result (λ slots. AllAreSilent (views D.told D.faults slots.items)) }
{
    let mut slots = Vec::new(alloc);
    slots.push(slot_of(alloc, device)?)?;
    Ok(slots)
}

/// The class `api/Net` twice, with these devices, which have told nothing.
fn two_slots<D: ApiDevice>(alloc: Global, first: D, second: D) -> Result<Vec<SlotOf<D>>, NoMemory>
    requires first { HasLog (D.told first) [] }
    requires second { HasLog (D.told second) [] }
    ensures { IfOk result (λ slots. AllAreSilent (views D.told D.faults slots.items)) }
{
    let mut slots = Vec::new(alloc);
    slots.push(slot_of(alloc, first)?)?;
    slots.push(slot_of(alloc, second)?)?;
    Ok(slots)
}

// ---- devices

/// What is printed of a run whose first send is answered, and whose second is not.
const SENDS_ONCE: &[u8] = b"go 0 16
call 0 api/Net send ()V
answer 0 nothing
return 0 api/Net send ()V
go 0 16
call 0 api/Net send ()V
end device 33
";

#[test]
fn a_device_that_fails_stops_the_run(rt: HostRuntime) -> Result<(), Fail> {
    let alloc = rt.alloc();
    let class = bytes_of(alloc, &SENDS)?;
    let mut store = store_of(alloc, class.as_slice())?;
    let woven = weave(&rt, alloc, &mut store, b"a/S")?;
    assert!(rt; woven.code() == 0, "it is woven");
    let slots = one_slot(alloc, Fused::new(alloc, 1))?;
    let ran = run_woven(
        &rt,
        alloc,
        &mut store,
        b"a/S",
        b"out/a/S.class",
        slots,
        &FreeGate,
    )?;
    assert!(rt; ran.status == 8, "status 8");
    assert!(rt; ran.printed.as_slice() == SENDS_ONCE, "the record");
    assert!(rt; ran.stopped_at == Some(33), "the book is kept");
    Ok(())
}

#[test]
fn an_answer_that_does_not_fit_stops_the_run(rt: HostRuntime) -> Result<(), Fail> {
    let alloc = rt.alloc();
    let class = bytes_of(alloc, &SENDS)?;
    let mut store = store_of(alloc, class.as_slice())?;
    let woven = weave(&rt, alloc, &mut store, b"a/S")?;
    assert!(rt; woven.code() == 0, "it is woven");
    let mut answers = List::new(alloc);
    answers.push(ApiAnswer::Int(5))?;
    let slots = one_slot(alloc, Scripted::new(answers))?;
    let ran = run_woven(
        &rt,
        alloc,
        &mut store,
        b"a/S",
        b"out/a/S.class",
        slots,
        &FreeGate,
    )?;
    assert!(rt; ran.status == 8, "status 8");
    assert!(rt;
        ran.printed.as_slice() == b"go 0 16\ncall 0 api/Net send ()V\nend device 16\n".as_slice(),
        "the record"
    );
    assert!(rt; ran.keeps_five, "the answer is kept");
    Ok(())
}

#[test]
fn of_two_devices_of_a_class_the_first_is_asked(rt: HostRuntime) -> Result<(), Fail> {
    let alloc = rt.alloc();
    let class = bytes_of(alloc, &SENDS)?;
    let mut store = store_of(alloc, class.as_slice())?;
    let woven = weave(&rt, alloc, &mut store, b"a/S")?;
    assert!(rt; woven.code() == 0, "it is woven");
    let slots = two_slots(alloc, Fused::new(alloc, 2), Fused::new(alloc, 0))?;
    let ran = run_woven(
        &rt,
        alloc,
        &mut store,
        b"a/S",
        b"out/a/S.class",
        slots,
        &FreeGate,
    )?;
    assert!(rt; ran.status == 0, "the second fails, and is not asked");
    let slots = two_slots(alloc, Fused::new(alloc, 0), Fused::new(alloc, 2))?;
    let ran = run_woven(
        &rt,
        alloc,
        &mut store,
        b"a/S",
        b"out/a/S.class",
        slots,
        &FreeGate,
    )?;
    assert!(rt; ran.status == 8, "the first fails");
    Ok(())
}

/// A device that never has the memory for an answer.
#[derive(Drop)]
struct Wanting;

impl ApiDevice for Wanting {
    ghost use Rattle.std.specs.Prelude.{None};

    ghost told = { λ _. None };

    ghost faults = { λ _. 0 };

    fn answer(&mut self, _call: &ApiCall) -> Result<ApiAnswer, DeviceFault> {
        Err(DeviceFault::Memory)
    }

    fn fault_count(&self) -> u64 {
        0
    }
}

#[test]
fn a_device_without_memory_ends_the_run_with_nothing_printed(rt: HostRuntime) -> Result<(), Fail> {
    let alloc = rt.alloc();
    let class = bytes_of(alloc, &SENDS)?;
    let mut store = store_of(alloc, class.as_slice())?;
    let woven = weave(&rt, alloc, &mut store, b"a/S")?;
    assert!(rt; woven.code() == 0, "it is woven");
    let slots = one_slot(alloc, Wanting)?;
    let ran = run_woven(
        &rt,
        alloc,
        &mut store,
        b"a/S",
        b"out/a/S.class",
        slots,
        &FreeGate,
    )?;
    assert!(rt; ran.status == 7, "status 7");
    assert!(rt; ran.printed.is_empty(), "nothing is printed");
    assert!(rt; ran.stopped_at == None, "no device stopped it");
    Ok(())
}

/// Where the device fails at its first call, the second and the third: the program makes two.
#[test]
fn a_device_fails_at_each_of_its_calls_in_turn(rt: HostRuntime) -> Result<(), Fail> {
    let alloc = rt.alloc();
    let class = bytes_of(alloc, &SENDS)?;
    let mut store = store_of(alloc, class.as_slice())?;
    let woven = weave(&rt, alloc, &mut store, b"a/S")?;
    assert!(rt; woven.code() == 0, "it is woven");
    for (passes, status, steps) in [(0u64, 8u8, Some(16usize)), (1, 8, Some(33)), (2, 0, None)] {
        let slots = one_slot(alloc, Fused::new(alloc, passes))?;
        let ran = run_woven(
            &rt,
            alloc,
            &mut store,
            b"a/S",
            b"out/a/S.class",
            slots,
            &FreeGate,
        )?;
        assert!(rt; ran.status == status, "{passes} calls: the status");
        assert!(rt; ran.stopped_at == steps, "{passes} calls: the steps");
    }
    Ok(())
}

// ---- workers

/// A gate that holds one worker at its first pass, until the other has passed; and counts who passes.
#[derive(Drop)]
struct Turns {
    held: u32,
    passed: [AtomicU32; 2],
}

impl Gate for Turns {
    fn pass(&self, worker: u32) {
        if worker == self.held && self.passed[self.held as usize % 2].load(Ordering::SeqCst) == 0 {
            self.wait();
        }
        self.passed[worker as usize % 2].store(1, Ordering::SeqCst);
    }
}

impl Turns {
    fn new(held: u32) -> Turns {
        Turns {
            held,
            passed: [AtomicU32::new(0), AtomicU32::new(0)],
        }
    }

    /// Waits for the other worker, for at most 10,000,000 turns.
    fn wait(&self) {
        let other = 1 - self.held as usize % 2;
        for _ in 0..10_000_000u32 {
            if self.passed[other].load(Ordering::SeqCst) != 0 {
                return;
            }
        }
    }

    /// Whether both have passed.
    fn both(&self) -> bool {
        self.passed[0].load(Ordering::SeqCst) != 0 && self.passed[1].load(Ordering::SeqCst) != 0
    }
}

/// The class `a/N`.
fn idles(alloc: Global) -> Result<Vec<u8>, Fail> {
    let mut class = Vec::new(alloc);
    for part in IDLES.as_slice() {
        if !class.is_empty() {
            class.extend_from_slice([0u8; 1000].as_slice())?;
        }
        let bytes = bytes_of(alloc, part)?;
        class.extend_from_slice(bytes.as_slice())?;
    }
    Ok(class)
}

/// Runs `a/N` to its end where this worker is held, and says whether both workers passed.
fn both_workers_run<R: Threads + Wait + Sync>(
    rt: &R,
    alloc: Global,
    held: u32,
) -> Result<bool, Fail> {
    let class = idles(alloc)?;
    let mut store = store_of(alloc, class.as_slice())?;
    let woven = weave(rt, alloc, &mut store, b"a/N")?;
    let gate = Turns::new(held);
    let slots = Vec::<SlotOf<Fused>>::new(alloc);
    let ran = run_woven(
        rt,
        alloc,
        &mut store,
        b"a/N",
        b"out/a/N.class",
        slots,
        &gate,
    )?;
    Ok(woven.code() == 0 && ran.status == 0 && gate.both())
}

#[test]
fn two_workers_take_part(rt: HostRuntime) -> Result<(), Fail> {
    for held in 0..2u32 {
        let both = both_workers_run(&rt, rt.alloc(), held)?;
        assert!(rt; both, "both passed while worker {held} was held");
    }
    Ok(())
}
