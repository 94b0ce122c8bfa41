// The questions, which change nothing.
ghost use Rattle.std.specs.Prelude.{◌≡◌, ◌≤◌, true, false, IfOk, IfErr};
ghost use Rattle.rules.specs.Moments.{limit};
ghost use Rattle.book.specs.Books.{moment};
ghost use Rattle.rules.specs.declared.refusals.Refusal.TheVariants.{Unopened};
ghost use Rattle.rules.specs.Steps.{not_opened};
ghost use Rattle.rules.specs.Questions.{debt_asked, held_asked, holding_asked, limit_asked};

use super::books::Book;
use collateral::kind::Collateral;
use numbering::{AuctionNumber, Participant};
use rules::Refusal;

// Cover is counted up to 10^15 cents.
const MOST_COUNTED: u64 = 1_000_000_000_000_000;

impl<C: Collateral> Book<C> {
    // The auction of a number, if it is opened.
    pub(crate) fn opened(&self, a: u8) -> Result<AuctionNumber, Refusal>
        ensures ok { IfOk result (λ n. (n.number ≡ a) × (not_opened a self.now.ledger ≡ false)) }
        ensures err { IfErr result (λ e. (e ≡ Unopened) × (not_opened a self.now.ledger ≡ true)) }
    {
        match AuctionNumber::try_from(a) {
            Ok(a) if usize::from(a.number) <= self.ledger.opened => Ok(a),
            _ => Err(Refusal::Unopened),
        }
    }

    // The credit limit of a participant.
    pub(crate) fn limit_of(&self, p: Participant) -> u64
        ensures value { result ≡ limit (moment C.cover C.verdict self.now) p.number }
        ensures within { result ≤ 1000000000000000 }
    {
        let counted = self
            .collateral
            .counted(p.number, self.ledger.day, MOST_COUNTED);
        counted.saturating_sub(self.ledger.owes(p) + self.ledger.held_sums(p))
    }

    // A participant's credit limit today.
    pub fn limit(&self, p: u8) -> Result<u64, Refusal>
        ensures { result ≡ limit_asked p (moment C.cover C.verdict self.now) }
    {
        let p = Participant::try_from(p)?;
        Ok(self.limit_of(p))
    }

    // What a participant owes.
    pub fn debt(&self, p: u8) -> Result<u64, Refusal>
        ensures { result ≡ debt_asked p (moment C.cover C.verdict self.now) }
    {
        let p = Participant::try_from(p)?;
        Ok(self.ledger.owes(p))
    }

    // The sum held for a participant in an auction.
    pub fn held(&self, p: u8, a: u8) -> Result<u64, Refusal>
        ensures { result ≡ held_asked p a (moment C.cover C.verdict self.now) }
    {
        let p = Participant::try_from(p)?;
        let a = self.opened(a)?;
        Ok(self.ledger.sheet(p, a).held)
    }

    // The MW that a participant holds of an auction in an hour.
    pub fn holding(&self, p: u8, a: u8, hour: u8) -> Result<u16, Refusal>
        ensures { result ≡ holding_asked p a hour (moment C.cover C.verdict self.now) }
    {
        let p = Participant::try_from(p)?;
        let a = self.opened(a)?;
        let span = self.ledger.auction(a).span();
        let hour = usize::from(hour);
        if hour < span.first || hour + 1 > span.end() {
            return Err(Refusal::Hours);
        }
        Ok(self.ledger.rights[hour].holding(a, p))
    }
}
