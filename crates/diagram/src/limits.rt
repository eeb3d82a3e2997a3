// The tick in which a state that waits is left, and the consecutive ticks that are a fault or a load gone.
pub const DETECTING_ENDS: u16 = 500;

pub const BACKOFF_ENDS: u16 = 2_000;

pub const ERROR_DELAY_ENDS: u16 = 750;

pub const CLASSIFYING_ENDS: u16 = 400;

pub const POWER_UP_ENDS: u16 = 400;

pub const FAULT: u16 = 60;

pub const LOAD_ABSENT: u16 = 320;
