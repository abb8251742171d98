use crate::copying::copy_length;
use crate::{BayFault, BayTable, OccupancyRack, Rack, RailRack};

#[test]
fn bay_table_edges(rt: HostRuntime) {
    let mut none = BayTable::new(0);
    assert!(rt; none.length() == 0 && none.read(0).is_none());
    assert_eq!(rt; none.write(0, 1), Err(BayFault::NoSuchBay));
    let mut full = BayTable::new(300);
    assert!(rt; full.length() == 256);
    assert_eq!(rt; full.read(255), Some(0));
    assert_eq!(rt; full.write(255, -5), Ok(()));
    assert_eq!(rt; full.read(255), Some(-5));
    assert_eq!(rt; full.write(256, 7), Err(BayFault::NoSuchBay));
    assert_eq!(rt; full.read(256), None);
}

#[test]
fn occupancy_edges(rt: HostRuntime) {
    let mut rack = OccupancyRack::new(5000);
    assert!(rt; rack.length() == 4096);
    assert_eq!(rt; rack.write(4095, 1), Ok(()));
    assert_eq!(rt; rack.write(4096, 2), Err(BayFault::NoSuchBay));
    assert_eq!(rt; rack.write(4094, 2), Err(BayFault::CannotHold));
    assert_eq!(rt; rack.write(4094, -1), Err(BayFault::CannotHold));
    assert_eq!(rt; rack.read(4095), Some(1));
    assert_eq!(rt; rack.read(4094), Some(0));
    assert_eq!(rt; rack.write(4095, 0), Ok(()));
    assert_eq!(rt; rack.read(4095), Some(0));
}

#[test]
fn rail_words(rt: HostRuntime) {
    let mut floats = [0.0; 2];
    let mut rack = RailRack::new(&mut floats);
    assert_eq!(rt; rack.write(0, 1_000_000.0), Ok(()));
    assert_eq!(rt; rack.write(1, -1_000_000.0), Ok(()));
    assert_eq!(rt; rack.write(0, 1_000_000.5), Err(BayFault::CannotHold));
    assert_eq!(rt; rack.write(1, -1_000_000.5), Err(BayFault::CannotHold));
    assert_eq!(rt; rack.write(0, 0.0 / 0.0), Err(BayFault::CannotHold));
    assert_eq!(rt; rack.write(2, 0.0 / 0.0), Err(BayFault::NoSuchBay));
    assert!(rt; floats[0] == 1_000_000.0 && floats[1] == -1_000_000.0);
}

#[test]
fn long_list(rt: HostRuntime) {
    let mut floats = [1.5; 4100];
    let mut rack = RailRack::new(&mut floats);
    assert!(rt; rack.length() == 4096);
    assert_eq!(rt; rack.write(4095, 2.5), Ok(()));
    assert_eq!(rt; rack.write(4096, 2.5), Err(BayFault::NoSuchBay));
    assert_eq!(rt; copy_length(&mut floats, 4095, 0), Ok(()));
    assert_eq!(rt; copy_length(&mut floats, 0, 4096), Err(BayFault::NoSuchBay));
    assert!(rt; floats[0] == 2.5 && floats[1] == 1.5 && floats[4096] == 1.5);
}
