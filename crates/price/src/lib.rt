// The price sheet of the legal dictionary: what a number of deliveries costs. This crate knows bytes and nothing of
// queues.
#![tactic(auto)]

pub mod exports;
pub mod refusal;
pub mod sheet;
pub mod total;

// A band of a sheet: the number of its last delivery, and its price in cents for a hundred deliveries.
#[derive(Clone, Copy)]
pub struct Band {
    pub last: u32,
    pub price: u32,
}

// Why a call is refused.
#[derive(Clone, Copy, Debug, PartialEq, Eq)]
pub enum PriceRefusal {
    Count,
    SheetTorn,
    Bands,
    PriceTooHigh,
}

// What a call returns, for C: a refusal's number, or 0 and a price in whole cents and hundredths of a cent.
#[repr(C)]
#[derive(Clone, Copy)]
pub struct PriceTotal {
    pub refusal: u32,
    pub cents: u32,
    pub remainder: u32,
}
