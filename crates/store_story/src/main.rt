// One story told over two makes of store through one generic text.
#![tactic(auto)]

use page_store::PageStore;
use std::io::Write;
use store::{Refusal, Store};
use volume_store::VolumeStore;

fn tell(rt: &HostRuntime, what: &str, answer: Result<(), Refusal>) -> anyhow::Result<()> {
    match answer {
        Ok(()) => println!(rt; "{what}: done")?,
        Err(refusal) => println!(rt; "{what}: refused, {refusal}")?,
    }
    Ok(())
}

fn show_slot<S: Store>(rt: &HostRuntime, store: &S, slot: usize) -> anyhow::Result<()> {
    let len = store.len(slot);
    let room = store.room(slot);
    println!(rt; "slot {slot}: {len} bytes, room {room}")?;
    Ok(())
}

fn show_name<S: Store>(rt: &HostRuntime, store: &S, name: &[u8]) -> anyhow::Result<()> {
    match store.published_length(name) {
        Some(len) => println!(rt; "published: {len} bytes")?,
        None => println!(rt; "published: nothing")?,
    }
    Ok(())
}

// Copies what stands under a name out in parts of eight bytes, a line for each.
fn copy_out<S: Store>(rt: &HostRuntime, store: &S, name: &[u8]) -> anyhow::Result<()> {
    for part in 0..4usize {
        let mut page = [b'.'; 8];
        match store.copy(name, part * 8, &mut page) {
            Ok(n) => println!(rt; "part {part}: {n} bytes")?,
            Err(refusal) => println!(rt; "part {part}: {refusal}")?,
        }
        rt.stdout().write_all(&page)?;
        println!(rt)?;
    }
    Ok(())
}

fn story<S: Store>(rt: &HostRuntime, store: &mut S) -> anyhow::Result<()> {
    show_slot(rt, store, 0)?;
    tell(rt, "add 14 bytes", store.add(0, b"answer sheet 1"))?;
    show_slot(rt, store, 0)?;
    tell(rt, "add 9,000 bytes", store.add(0, &[b'x'; 9000]))?;
    show_slot(rt, store, 0)?;
    store.clear(0);
    println!(rt; "clear")?;
    show_slot(rt, store, 0)?;
    tell(rt, "publish an empty slot", store.publish(0, b"/a"))?;
    copy_out(rt, store, b"/a")?;
    publish_twice(rt, store)
}

fn publish_twice<S: Store>(rt: &HostRuntime, store: &mut S) -> anyhow::Result<()> {
    tell(rt, "add 9 bytes", store.add(3, b"script 1."))?;
    tell(rt, "add 9 bytes", store.add(3, b" And more"))?;
    tell(rt, "publish", store.publish(3, b"/a"))?;
    show_slot(rt, store, 3)?;
    show_name(rt, store, b"/a")?;
    copy_out(rt, store, b"/a")?;
    tell(rt, "add 8 bytes", store.add(7, b"script 2"))?;
    tell(rt, "publish under the same name", store.publish(7, b"/a"))?;
    show_name(rt, store, b"/a")?;
    copy_out(rt, store, b"/a")?;
    tell(rt, "publish without a name", store.publish(7, b""))?;
    tell(rt, "add to slot 16", store.add(16, b"x"))?;
    show_slot(rt, store, 0)
}

fn main(rt: HostRuntime) -> anyhow::Result<()> {
    println!(&rt; "two pages of 4,096 bytes")?;
    let region = vec![in rt.alloc(); 0u8; 8192]?;
    story(&rt, &mut PageStore::new(region)?)?;
    println!(&rt)?;
    println!(&rt; "16 slots of 64 bytes and a volume")?;
    let region = vec![in rt.alloc(); 0u8; 1200]?;
    story(&rt, &mut VolumeStore::new(region, 64, 0)?)
}
