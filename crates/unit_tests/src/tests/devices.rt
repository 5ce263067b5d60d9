//! Devices in boxes: which one is asked, what it answers, and that each refusal is passed on.

use api_listing::{ApiAnswer, ApiCall, ApiValue};
use api_shelf::{ApiDevice, Console, DeviceFault, Fused, Scripted, Shelf, SlotOf, answer_call};
use mon_base::{Bytes, List, MethodId, NoMemory};
use std::alloc::Global;
use std::test::Fail;

/// A call of this method with one text.
fn call_of(alloc: Global, class: &[u8], name: &[u8], desc: &[u8]) -> Result<ApiCall, NoMemory> {
    let mut args = List::new(alloc);
    args.push(ApiValue::Text(Bytes::from_slice(alloc, b"text")?))?;
    let method = MethodId {
        class: Bytes::from_slice(alloc, class)?,
        name: Bytes::from_slice(alloc, name)?,
        desc: Bytes::from_slice(alloc, desc)?,
    };
    Ok(ApiCall {
        method,
        instance: true,
        args,
    })
}

/// A device that answers this number first.
fn scripted(alloc: Global, number: i32) -> Result<Scripted, NoMemory> {
    let mut answers = List::new(alloc);
    answers.push(ApiAnswer::Int(number))?;
    Ok(Scripted::new(answers))
}

/// Whether the call is answered so.
fn answers(
    alloc: Global,
    shelf: &mut Shelf,
    call: &ApiCall,
    wanted: &Result<ApiAnswer, DeviceFault>,
) -> bool {
    answer_call(alloc, shelf.devices.as_mut_slice(), call) == *wanted
}

#[test]
fn the_first_device_of_a_class_answers(rt: HostRuntime) -> Result<(), Fail> {
    let alloc = rt.alloc();
    let mut shelf = Shelf {
        devices: Vec::new(alloc),
    };
    for number in 7..9i32 {
        let device: Box<dyn ApiDevice + Send> = Box::new(alloc, scripted(alloc, number)?)?;
        let class = Bytes::from_slice(alloc, b"api/Net")?;
        shelf.devices.push(SlotOf { class, device })?;
    }
    let read = call_of(alloc, b"api/Net", b"read", b"()I")?;
    assert!(rt;
        answers(alloc, &mut shelf, &read, &Ok(ApiAnswer::Int(7))),
        "its own answer"
    );
    assert!(rt;
        answers(alloc, &mut shelf, &read, &Ok(ApiAnswer::Int(0))),
        "then plainly"
    );
    let other = call_of(alloc, b"api/Log", b"self", b"(Lapi/Log;)Lapi/Log;")?;
    assert!(rt;
        answers(alloc, &mut shelf, &other, &Ok(ApiAnswer::Receiver)),
        "no device"
    );
    Ok(())
}

#[test]
fn a_fused_device_fails_after_its_passes(rt: HostRuntime) -> Result<(), Fail> {
    let alloc = rt.alloc();
    let device: Box<dyn ApiDevice + Send> = Box::new(alloc, Fused::new(alloc, 2))?;
    let class = Bytes::from_slice(alloc, b"api/Net")?;
    let mut shelf = Shelf {
        devices: Vec::new(alloc),
    };
    shelf.devices.push(SlotOf { class, device })?;
    let send = call_of(alloc, b"api/Net", b"send", b"(Ljava/lang/String;)V")?;
    for call in 0..4u64 {
        let wanted = if call < 2 {
            Ok(ApiAnswer::Nothing)
        } else {
            Err(DeviceFault::Failed)
        };
        assert!(rt; answers(alloc, &mut shelf, &send, &wanted), "call {call}");
    }
    let faults = shelf.devices.get(0).map(|slot| slot.device.fault_count());
    assert!(rt; faults == Some(2), "its faults");
    Ok(())
}

#[test]
fn a_console_writes_to_standard_error(rt: HostRuntime) -> Result<(), Fail> {
    let alloc = rt.alloc();
    let mut console: Box<dyn ApiDevice + Send> = Box::new(alloc, Console::new(alloc, rt.stderr()))?;
    let print = call_of(alloc, b"api/Out", b"println", b"(Ljava/lang/String;)V")?;
    assert!(rt;
        console.answer(&print) == Ok(ApiAnswer::Nothing),
        "a plain answer"
    );
    assert!(rt; console.fault_count() == 0, "no fault");
    Ok(())
}
