// Answers of more than one number.

// To a bid: its number, the worst charge of the participant's bids in the auction, and its credit limit.
#[derive(Clone, Copy, PartialEq, Eq, Debug)]
pub struct Receipt {
    pub number: u64,
    pub worst: u64,
    pub limit: u64,
}

// To a seal: the bids kept and those left out.
#[derive(Clone, Copy, PartialEq, Eq, Debug)]
pub struct Cut {
    pub kept: u64,
    pub left: u64,
}

// To an award: the price and the MW awarded.
#[derive(Clone, Copy, PartialEq, Eq, Debug)]
pub struct Clearing {
    pub price: u32,
    pub mw: u32,
}

// To an invoice: the sum to pay and the sum credited.
#[derive(Clone, Copy, PartialEq, Eq, Debug)]
pub struct Netting {
    pub pay: u64,
    pub credit: u64,
}
