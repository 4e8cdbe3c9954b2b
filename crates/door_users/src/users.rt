//! The users of a file.

ghost use Rattle.std.specs.Prelude.{◌≡◌, Ok, IfErr, MatchOption, OnOk, false, find, true};
ghost use Rattle.std.specs.Str.{bytes_eq};
ghost use Rattle.door_users.specs.Accounts.{accounts_of, has_name, is_skipped, with_line};
ghost use Rattle.door_users.specs.Admitting.{entry_of};
ghost use Rattle.door_users.specs.Outcomes.{Fails, FileGives};

use crate::account::Account;
use crate::fault::{FileFault, LineFlaw, Unread};
use crate::lines::FileLines;
use crate::password::DEFAULT_ITERATIONS;
use std::alloc::Global;
use std::marker::Model;

/// What comes of a user name and a password.
#[derive(Clone, Copy, Debug, PartialEq, Eq)]
pub enum Entry {
    /// The password is that of the user.
    Admitted,
    /// There is no such user, or the password is another one.
    WrongPassword,
}

/// The users of a file, in the order of their lines.
#[derive(Debug, Drop)]
pub struct Users {
    accounts: Vec<Account>,
    /// What the password of an unknown name is compared with.
    decoy: Account,
}

impl Model for Users {
    ghost use Rattle.std.specs.Prelude.{List};
    ghost use Rattle.door_users.specs.Accounts.{Account as AccountValue};

    ghost Value = { List AccountValue };

    ghost view = { λ users. users.accounts.items };
}

/// Whether a line says nothing.
pub(crate) fn is_skipped(line: &str) -> bool
    ensures { result ≡ is_skipped line.now }
{
    line.is_empty() || line.starts_with("#")
}

/// Whether an account of this name is among these.
fn has_name(accounts: &[Account], name: &str) -> bool
    ensures { result ≡ has_name name.now accounts.now }
{
    accounts.iter().any(|account| account.name() == name)
}

/// Adds the account of a line, if it has one.
fn add_line(accounts: &mut Vec<Account>, alloc: Global, line: &str) -> Result<(), Unread>
    ensures ok { OnOk result (with_line accounts.old.items line.now ≡ Ok accounts.new.items) }
    ensures err { IfErr result (λ e. Fails e (with_line accounts.old.items line.now)) }
{
    if is_skipped(line) {
        return Ok(());
    }
    let account = Account::of_line(alloc, line)?;
    if has_name(accounts, account.name()) {
        return Err(Unread::Flaw(LineFlaw::NameTwice));
    }
    accounts.push(account)?;
    Ok(())
}

impl Users {
    /// The users of a file, or its first line with a flaw.
    #[tactic(auto, using(crate::proofs::LineLaws::lines_bound, crate::proofs::StepLaws::users_go, crate::proofs::StepLaws::users_fail, crate::proofs::StepLaws::users_end))]
    pub fn parse(alloc: Global, text: &str) -> Result<Users, FileFault>
        ensures { FileGives (λ users. users) result (accounts_of text.now) }
    {
        let mut accounts = Vec::new(alloc);
        let mut number: u64 = 1;
        for line in FileLines::of(text) {
            match add_line(&mut accounts, alloc, line.trim()) {
                Ok(()) => {}
                Err(Unread::NoMemory) => return Err(FileFault::NoMemory),
                Err(Unread::Flaw(flaw)) => return Err(FileFault::Line(number, flaw)),
            }
            number += 1;
        }
        let iterations = match accounts.first() {
            Some(account) => account.iterations(),
            None => DEFAULT_ITERATIONS,
        };
        let Ok(decoy) = Account::decoy(alloc, iterations) else {
            return Err(FileFault::NoMemory);
        };
        Ok(Users { accounts, decoy })
    }

    /// The account of a user name, and true; another one, and false, where there is none.
    fn account_for(&self, name: &str) -> (&Account, bool)
        ensures { MatchOption (find (λ a. bytes_eq a.name name.now) self.now) (result.1 ≡ false) (λ a. (result.0.now ≡ a) × (result.1 ≡ true)) }
    {
        for account in &self.accounts {
            if account.name() == name {
                return (account, true);
            }
        }
        (&self.decoy, false)
    }

    /// What comes of a user name and a password. An unknown name takes as many iterations as the first user.
    #[tactic(auto, using(crate::proofs::AdmitLaws::admitted, crate::proofs::AdmitLaws::refused))]
    pub fn admits(&self, name: &str, password: &[u8]) -> Entry
        ensures { result ≡ entry_of self.now name.now password.now }
    {
        let (account, known) = self.account_for(name);
        let right = account.has_password(password);
        if right & known {
            Entry::Admitted
        } else {
            Entry::WrongPassword
        }
    }
}
