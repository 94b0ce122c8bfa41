// Examples of accounts.
use super::*;

#[test]
fn dues_are_netted_against_claims(rt: HostRuntime) {
    let mut account = Account::empty();
    account.charge(57600);
    account.claim(60000);
    assert_eq!(rt; account.invoice(0), (0, 2400));
    assert_eq!(rt; account.pay_out(), 2400);
    assert_eq!(rt; account.pay_out(), 0);
}

#[test]
fn the_invoice_due_first_is_paid_first(rt: HostRuntime) {
    let mut account = Account::empty();
    account.charge(100);
    assert_eq!(rt; account.invoice(20), (100, 0));
    account.charge(50);
    assert_eq!(rt; account.invoice(5), (50, 0));
    assert_eq!(rt; account.overdue(15), 0);
    assert_eq!(rt; account.overdue(16), 50);
    assert_eq!(rt; account.pay(60), 90);
    account.charge(7);
    assert_eq!(rt; account.owed(), 97);
    assert_eq!(rt; account.overdue(31), 90);
    assert_eq!(rt; account.unpaid, 1);
}
