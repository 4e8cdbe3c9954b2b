//! Slots are taken, freed and found again, over a word's end and at the last slot.

use qos_handshakes::Slots;
use std::process::Abort;

fn add(rt: &impl Abort, slots: &mut Slots) {
    assert!(rt; slots.len() < 65_536);
    slots.add().expect(rt, "memory");
}

fn write(rt: &impl Abort, slots: &mut Slots, slot: usize, value: u64) {
    assert!(rt; slot < slots.len());
    slots.set(slot, value);
}

#[test]
fn first_free_slot_is_found(rt: HostRuntime) {
    let mut slots = Slots::new(rt.alloc());
    assert_eq!(rt; slots.first_free(), 0);
    for slot in 0..130 {
        add(&rt, &mut slots);
        assert_eq!(rt; slots.first_free(), slot);
        write(&rt, &mut slots, slot, 7);
    }
    assert_eq!(rt; slots.len(), 130);
    assert_eq!(rt; slots.first_free(), 130);
    for slot in [129, 128, 64, 63, 0] {
        write(&rt, &mut slots, slot, 0);
        assert_eq!(rt; slots.first_free(), slot);
        assert_eq!(rt; slots.get(slot), 0);
    }
    write(&rt, &mut slots, 0, 1);
    assert_eq!(rt; slots.first_free(), 63);
    assert_eq!(rt; slots.get(0), 1);
}
