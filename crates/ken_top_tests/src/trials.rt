// Turns of the ledger and of the leases, by the tables of their READMEs.
use ken_leases::Leases;
use ken_ledger::Ledger;
use ken_model::OUTSIDE;
use ken_trial::{Trial, TrialFault};
use std::test::Fail;

#[test]
fn a_ledger_takes_deposits_and_pays(rt: HostRuntime) -> Result<(), Fail> {
    let mut trial = Trial::new(rt.alloc(), Ledger, 0, 2, 1)?;
    let deposit = trial.take(OUTSIDE, b"100", &[7])?;
    assert!(rt; deposit.is(&[], &["100", "7"], 100), "{deposit:?}");
    let payment = trial.take(OUTSIDE, b"1 30", &[9])?;
    assert!(rt; payment.is(&[(1, "30")], &["70", "9"], 70), "{payment:?}");
    let refused = trial.take(OUTSIDE, b"1 71", &[])?;
    assert!(rt; refused.is(&[], &["refused"], 70), "{refused:?}");
    assert_eq!(rt; trial.value()?.root, 70);
    Ok(())
}

// Fewer draws and more than a deposit takes: the balance stays.
#[test]
fn other_draws_change_nothing(rt: HostRuntime) -> Result<(), Fail> {
    let mut trial = Trial::new(rt.alloc(), Ledger, 1, 2, 1)?;
    let other = Some(TrialFault::OtherDraws);
    assert_eq!(rt; trial.take(OUTSIDE, b"100", &[]).err(), other);
    assert_eq!(rt; trial.take(OUTSIDE, b"100", &[7, 0]).err(), other);
    let deposit = trial.take(0, b"5", &[8])?;
    assert!(rt; deposit.is(&[], &["5", "8"], 5), "{deposit:?}");
    Ok(())
}

#[test]
fn a_keeper_grants_a_lease(rt: HostRuntime) -> Result<(), Fail> {
    let mut trial = Trial::new(rt.alloc(), Leases, 0, 2, 1)?;
    let asked = trial.take(OUTSIDE, b"acquire b 5", &[])?;
    assert!(rt; asked.is(&[(0, "acquire b 5")], &[], 0), "{asked:?}");
    let granted = trial.take(0, b"acquire b 5", &[10])?;
    assert!(rt;
        granted.is(&[(0, "granted b 10 15")], &[], 0),
        "{granted:?}"
    );
    let held = trial.take(1, b"acquire b 3", &[14])?;
    assert!(rt; held.is(&[(1, "held b 15")], &[], 0), "{held:?}");
    let next = trial.take(1, b"acquire b 3", &[15])?;
    assert!(rt; next.is(&[(1, "granted b 15 18")], &[], 0), "{next:?}");
    let told = trial.take(0, b"granted b 10 15", &[])?;
    assert!(rt; told.is(&[], &["granted b 10 15"], 0), "{told:?}");
    assert_eq!(rt; trial.value()?.blocks.len(), 1);
    Ok(())
}

// A name with a line feed can't be sent on.
#[test]
fn a_turn_beyond_the_limits(rt: HostRuntime) -> Result<(), Fail> {
    let mut trial = Trial::new(rt.alloc(), Leases, 0, 2, 1)?;
    let beyond = trial.take(OUTSIDE, b"acquire a\nb 5", &[])?;
    assert!(rt; beyond.is(&[], &["beyond the limits"], 0), "{beyond:?}");
    Ok(())
}
