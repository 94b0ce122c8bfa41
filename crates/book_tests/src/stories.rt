// Whole stories, from collateral brought in to the last payment.
use book::{Book, Clearing, Cut, Netting, Receipt};
use collateral::joined::Joined;

// Ten MW in two hours, 1,000 cents bid for all of them and 500 for five: the price is 1,000, the due 20,000.
#[test]
fn what_is_awarded_is_invoiced_and_drawn(rt: HostRuntime) {
    let mut book = Book::new(Joined::new());
    assert_eq!(rt; book.add(1, 1, 100_000, 9_999), Ok(100_000));
    assert_eq!(rt; book.add(2, 1, 50_000, 9_999), Ok(50_000));
    assert_eq!(rt; book.open(1, 2, 0, 2, 10), Ok(1));
    assert_eq!(rt;
        book.bid(1, 1, 1_000, 10),
        Ok(Receipt {
            number: 1,
            worst: 20_000,
            limit: 100_000
        })
    );
    assert_eq!(rt;
        book.bid(2, 1, 500, 5),
        Ok(Receipt {
            number: 2,
            worst: 5_000,
            limit: 50_000
        })
    );
    assert_eq!(rt; book.seal(1), Ok(Cut { kept: 2, left: 0 }));
    assert_eq!(rt; book.held(1, 1), Ok(20_000));
    assert_eq!(rt; book.limit(1), Ok(80_000));
    assert_eq!(rt;
        book.withdraw(1, 80_001).map_err(|why| why.number()),
        Err(10)
    );
    assert_eq!(rt;
        book.award(1),
        Ok(Clearing {
            price: 1_000,
            mw: 10
        })
    );
    assert_eq!(rt; book.debt(1), Ok(20_000));
    assert_eq!(rt; book.debt(2), Ok(0));
    assert_eq!(rt; book.limit(2), Ok(50_000));
    assert_eq!(rt;
        book.invoice(1),
        Ok(Netting {
            pay: 20_000,
            credit: 0
        })
    );
    assert_eq!(rt; book.draw(1).map_err(|why| why.number()), Err(13));
    assert_eq!(rt; book.day(11), Ok(11));
    assert_eq!(rt; book.draw(1), Ok(20_000));
    assert_eq!(rt; book.limit(1), Ok(80_000));
    assert_eq!(rt; book.payment(1, 1).map_err(|why| why.number()), Err(14));
}
