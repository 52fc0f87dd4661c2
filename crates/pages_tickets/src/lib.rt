//! Prices of tickets.
#![tactic(auto)]

/// The price of some tickets.
pub fn price(tickets: u8) -> u32 {
    u32::from(tickets) * 9
}

#[cfg(test)]
mod tests {
    use super::price;
    use predicates::prelude::*;
    use std::test::Fail;

    #[test]
    fn one_ticket(rt: HostRuntime) -> Result<(), Fail> {
        let cheap = predicate::ge(5).and(predicate::le(10));
        require(rt.alloc(), &cheap, &price(1))?;
        Ok(())
    }

    #[test]
    fn each_price(rt: HostRuntime) -> Result<(), Fail> {
        let alloc = rt.alloc();
        let mut expected = Vec::new(alloc);
        expected.push(expect(alloc, "one ticket", price(1), predicate::le(9))?)?;
        expected.push(expect(alloc, "two tickets", price(2), predicate::le(18))?)?;
        expected.push(expect(alloc, "three tickets", price(3), predicate::le(27))?)?;
        require_all(alloc, expected.as_slice())?;
        Ok(())
    }
}
