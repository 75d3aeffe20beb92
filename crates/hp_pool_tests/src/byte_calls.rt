//! Byte calls beside what a Linux kernel answered to them: the scripts of `conformance/calls-fixed.txt` with such calls,
//! line by line, as far as a rule of ours isn't in the way.
use crate::byte_call::ByteCall;
use hp_base::{Answer, Config, File, Index, Op, Task, Vpn};
use hp_client::{ClientFault, CoreDriver, Driver};
use std::alloc::{AllocError, Global};
use std::test::Fail;

/// As they were recorded, but for these lines. Of a mode that isn't known and a length of 0 Linux tells the length first.
/// `munmap` has a length, here a whole mapping goes. A punch doesn't zero parts of pages here; a file has at most 4,096
/// pages, and its size is counted in pages: there a script ends.
const ANSWERS: &str = "script w:fallocate_align\n\
pool 4 1 4 1\n\
begin 1 xfallocate 0 0 1 2097152 = done | 2 0 | 1+1 2 | 0\n\
begin 1 xfallocate 0 3 1 4194303 = done | 3 0 | 1+1 1 | 0\n\
begin 1 xfallocate 0 3 1 2097151 = done | 3 0 | 1+1 1 | 0\n\
script b:sizes-and-modes\n\
pool 4 1 4 1\n\
begin 1 xmap 0 0 2097152 = mapped 0 | 4 1 | 1 0 | 0\n\
begin 1 xftruncate 0 2097153 = errno EINVAL | 4 1 | 1 0 | 0\n\
begin 1 xfallocate 0 2 0 1 = errno EOPNOTSUPP | 4 1 | 1 0 | 0\n\
begin 1 xfallocate 0 4 0 1 = errno EOPNOTSUPP | 4 1 | 1 0 | 0\n\
begin 1 xfallocate 0 0 0 0 = errno EINVAL | 4 1 | 1 0 | 0\n\
begin 1 xfallocate 0 0 1 1 = done | 3 0 | 1 1 | 0\n\
begin 1 xfallocate 0 3 1 2097152 = done | 3 0 | 1 1 | 0\n\
begin 1 store 0 8 = done | 3 0 | 1 1 | 1\n\
begin 1 load 0 = word 8 | 3 0 | 1 1 | 1\n\
begin 1 load 1 = segv | 3 0 | 1 1 | 1\n\
begin 1 xunmap 0 2097152 = done | 3 0 | 1 1 | 0\n\
begin 1 xftruncate 0 0 = done | 4 0 | 0 0 | 0\n\
script b:fallocate-size-in-bytes\n\
pool 4 1 4 1\n\
begin 1 xfallocate 0 0 1 2097152 = done | 2 0 | 1+1 2 | 0\n\
begin 1 mapn 0 0 1 = mapped 0 | 2 0 | 1+1 2 | 0\n\
begin 1 load 0 = word 0 | 2 0 | 1+1 2 | 1\n\
begin 1 xfallocate 0 0 0 1 = done | 2 0 | 1+1 2 | 1\n\
script b:fallocate-size-then-touch\n\
pool 4 1 4 1\n\
begin 1 xmap 0 0 2097152 = mapped 0 | 4 1 | 1 0 | 0\n\
begin 1 xfallocate 0 0 1 2097152 = done | 2 0 | 1+1 2 | 0\n\
begin 1 xload 0 = byte 0 | 2 0 | 1+1 2 | 1\n\
begin 1 mapn 0 0 2 = mapped 1 | 2 0 | 2 2 | 1\n\
begin 1 load 2 = word 0 | 2 0 | 2 2 | 2\n\
script b:fallocate-size-keeps-touch-out\n\
pool 4 2 4 1\n\
begin 1 mapn 0 0 2 = mapped 0 | 4 0 | 2 0, 0 0 | 0\n\
begin 1 trunc 0 0 = done | 4 0 | 0 0, 0 0 | 0\n\
begin 1 xfallocate 0 0 1 2097152 = done | 2 0 | 1+1 2, 0 0 | 0\n\
begin 1 load 0 = word 0 | 2 0 | 1+1 2, 0 0 | 1\n\
begin 1 load 1 = word 0 | 2 0 | 1+1 2, 0 0 | 2\n\
begin 1 xfallocate 0 0 0 4194304 = done | 2 0 | 2 2, 0 0 | 2\n\
begin 1 load 1 = word 0 | 2 0 | 2 2, 0 0 | 2\n\
script b:refusal-order\n\
pool 4 1 4 1\n\
begin 1 xfallocate 0 8 0 2097152 = errno EOPNOTSUPP | 4 0 | 0 0 | 0\n\
begin 1 xfallocate 0 16 0 2097152 = errno EOPNOTSUPP | 4 0 | 0 0 | 0\n\
begin 1 xfallocate 0 32 0 2097152 = errno EOPNOTSUPP | 4 0 | 0 0 | 0\n\
begin 1 xfallocate 0 64 0 2097152 = errno EOPNOTSUPP | 4 0 | 0 0 | 0\n\
begin 1 xfallocate 0 1 0 2097152 = done | 3 0 | 0 1 | 0\n\
begin 1 xfallocate 0 3 0 0 = errno EINVAL | 3 0 | 0 1 | 0\n\
script b:map-lengths\n\
pool 4 1 4 1\n\
begin 1 xmap 0 0 1 = mapped 0 | 4 1 | 1 0 | 0\n\
begin 1 xmap 0 1 2097152 = errno EINVAL | 4 1 | 1 0 | 0\n\
begin 1 xmap 0 4096 2097152 = errno EINVAL | 4 1 | 1 0 | 0\n\
begin 1 xmap 0 0 2097153 = mapped 1 | 4 2 | 2 0 | 0\n\
begin 1 xmap 0 0 0 = errno EINVAL | 4 2 | 2 0 | 0\n\
begin 1 xunmap 0 2097152 = done | 4 2 | 2 0 | 0\n\
script b:touch-inside-page\n\
pool 4 1 4 1\n\
begin 1 map 0 0 1 = mapped 0 | 4 1 | 1 0 | 0\n\
begin 1 store 0 258 = done | 3 0 | 1 1 | 1\n\
begin 1 xload 0 = byte 2 | 3 0 | 1 1 | 1\n\
begin 1 xload 1 = byte 1 | 3 0 | 1 1 | 1\n\
begin 1 xload 2097151 = byte 0 | 3 0 | 1 1 | 1\n\
begin 1 xload 2097152 = sigsegv | 3 0 | 1 1 | 1\n\
script b:partial-punch-zeroes\n\
pool 4 1 4 1\n\
begin 1 map 0 0 1 = mapped 0 | 4 1 | 1 0 | 0\n\
begin 1 store 0 258 = done | 3 0 | 1 1 | 1\n\
begin 1 xfallocate 0 3 0 8 = done | 3 0 | 1 1 | 1\n\
script b:far-sizes\n\
pool 4 1 4 1\n\
begin 1 xftruncate 0 8589934592 = done | 4 0 | 4096 0 | 0\n\
script b:size-in-bytes-shows\n\
pool 4 1 4 1\n\
begin 1 mapn 0 0 2 = mapped 0 | 4 0 | 2 0 | 0\n\
begin 1 trunc 0 0 = done | 4 0 | 0 0 | 0\n\
begin 1 xfallocate 0 0 1 2097152 = done | 2 0 | 1+1 2 | 0\n\
begin 1 punch 0 1 1 = done | 3 0 | 1+1 1 | 0\n";

const PAGE: u64 = 2_097_152;

/// The byte at an address of a page whose word this is.
fn byte_at(word: u64, address: u64) -> u64 {
    match address % PAGE {
        place if place < 8 => (word >> (8 * place)) & 255,
        _ => 0,
    }
}

/// What the kernel would have told.
fn told(alloc: Global, answer: Result<Answer, ClientFault>) -> Result<String, AllocError> {
    match answer {
        Ok(Answer::BadRange) | Err(ClientFault::Unaligned) => format!(in alloc; "errno EINVAL"),
        Ok(answer) => format!(in alloc; "{answer}"),
        Err(ClientFault::NotSupported) => format!(in alloc; "errno EOPNOTSUPP"),
        Err(fault) => format!(in alloc; "{fault}"),
    }
}

fn told_byte(
    alloc: Global,
    answer: Result<Answer, ClientFault>,
    address: u64,
) -> Result<String, AllocError> {
    match answer {
        Ok(Answer::Word(word)) => {
            let byte = byte_at(word, address);
            format!(in alloc; "byte {byte}")
        }
        Ok(Answer::Segv) => format!(in alloc; "sigsegv"),
        other => told(alloc, other),
    }
}

/// The numbers behind a line's first word, of which there are four at most.
fn numbers(words: &[&str]) -> Result<[u64; 4], Fail> {
    let mut found = [0; 4];
    for (place, word) in found.iter_mut().zip(words) {
        *place = word.parse()?;
    }
    Ok(found)
}

/// A number of pages.
fn pages(number: u64) -> u32 {
    u32::try_from(number).unwrap_or(u32::MAX)
}

/// The operation of a line that isn't a byte call.
fn op_of(name: &str, numbers: [u64; 4]) -> Option<Op> {
    let [first, second, third, _] = numbers;
    let (file, from, len) = (File::new(0), Index::new(pages(second)), pages(third));
    let vpn = Vpn::new(pages(first));
    match name {
        "map" => Some(Op::Map { file, from, len }),
        "mapn" => Some(Op::MapNoReserve { file, from, len }),
        "punch" => Some(Op::Punch { file, from, len }),
        "trunc" => Some(Op::Truncate {
            file,
            new: pages(second),
        }),
        "load" => Some(Op::Load { vpn }),
        "store" => Some(Op::Store { vpn, word: second }),
        _ => None,
    }
}

/// The byte call of a line. Linux rounds the lengths of maps up.
fn byte_call_of(name: &str, numbers: [u64; 4]) -> Option<ByteCall> {
    let [first, second, third, fourth] = numbers;
    match name {
        "xmap" => {
            let bytes = third.div_ceil(PAGE).saturating_mul(PAGE);
            Some(ByteCall::GetHugePages(second, bytes))
        }
        "xunmap" => Some(ByteCall::FreeHugePages(first)),
        "xftruncate" => Some(ByteCall::Ftruncate(second)),
        "xfallocate" => Some(ByteCall::Fallocate(pages(second), third, fourth)),
        "xload" => Some(ByteCall::Load(first)),
        _ => None,
    }
}

/// Makes the call of a line.
fn make(
    driver: &mut CoreDriver,
    alloc: Global,
    name: &str,
    numbers: [u64; 4],
) -> Result<Answer, ClientFault> {
    if let Some(op) = op_of(name, numbers) {
        return driver.call(alloc, Task::new(1), op);
    }
    match byte_call_of(name, numbers) {
        Some(call) => call.make(driver, alloc),
        None => Err(ClientFault::NotSupported),
    }
}

/// Makes the call that a line's words spell, and tells what the kernel would have.
fn call(driver: &mut CoreDriver, alloc: Global, words: &[&str]) -> Result<String, Fail> {
    let Some((name, others)) = words.split_first() else {
        return Err("a line without a call".into());
    };
    let numbers = numbers(others)?;
    let answer = make(driver, alloc, name, numbers);
    if *name == "xload" {
        return Ok(told_byte(alloc, answer, numbers[0])?);
    }
    Ok(told(alloc, answer)?)
}

/// The driver of a new pool.
fn open(alloc: Global, words: &[&str]) -> Result<CoreDriver, Fail> {
    let [frames, files, slots, tasks] = numbers(words)?;
    let config = Config::new(pages(frames), pages(files), pages(slots), pages(tasks))?;
    Ok(CoreDriver::open(alloc, config)?)
}

/// Makes the call of a line, if it has one, and tells whether the answer and the numbers of the pool are those of the kernel.
fn is_as_recorded(driver: &mut CoreDriver, alloc: Global, line: &str) -> Result<bool, Fail> {
    let Some((asked, answered)) = line.split_once(" = ") else {
        return Ok(true);
    };
    let words: Vec<&str> = asked.split_whitespace().skip(2).collect(alloc)?;
    let answer = call(driver, alloc, words.as_slice())?;
    let tally = driver.tally();
    let told = format!(in alloc; "{answer} | {} {} |", tally.free, tally.resv)?;
    Ok(answered.starts_with(told.as_str()))
}

#[test]
fn byte_calls_answer_as_linux_did(rt: HostRuntime) -> Result<(), Fail> {
    let alloc = rt.alloc();
    let mut driver = open(alloc, &["1", "1", "1", "1"])?;
    for line in ANSWERS.lines() {
        if let Some(sizes) = line.strip_prefix("pool ") {
            let words: Vec<&str> = sizes.split_whitespace().collect(alloc)?;
            driver = open(alloc, words.as_slice())?;
        }
        assert!(rt; is_as_recorded(&mut driver, alloc, line)?, "{line}");
    }
    Ok(())
}
