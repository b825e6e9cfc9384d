// Who a user is.
ghost use Rattle.std.specs.Prelude.{◌≡◌, IsTrue, IfOk, IfSome};
ghost use Rattle.user_task.specs.Fitting.{is_name};
ghost use Rattle.user_words.specs.Plan.{name_read, pass_read, instance_read, identity_of};

use crate::pass_word::PassWord;
use crate::word::read_one;
use octet_core::{Memory, Octets};
use sle_common::InstanceId;
use std::alloc::Global;
use user_task::Signing;
use words::{Identifier, Name};

/// Who a user is, and which service instance it binds to.
#[derive(Drop)]
pub struct Identity {
    /// The user's name: 3 to 16 characters from 21 to 7E.
    pub name: Octets,
    pub signing: Signing,
    pub instance: InstanceId,
}

impl Identity {
    // By three words.
    pub(crate) fn read(
        alloc: Global,
        name: &str,
        pass: &str,
        instance: &str,
    ) -> Result<Option<Identity>, Memory>
        ensures exact { IfOk result (λ identity. identity
            ≡ identity_of name.now pass.now instance.now) }
        ensures fits { IfOk result (λ identity. IfSome identity (λ i. IsTrue (is_name i.name))) }
    {
        let Some(name) = name_of(alloc, name)? else {
            return Ok(None);
        };
        let Some(signing) = pass_of(alloc, pass)? else {
            return Ok(None);
        };
        let Some(instance) = instance_of(alloc, instance)? else {
            return Ok(None);
        };
        Ok(Some(Identity {
            name,
            signing,
            instance,
        }))
    }
}

#[tactic(auto, unfolding(crate::specs::Plan::name_read), using(crate::proofs::Fitting::name_fits))]
fn name_of(alloc: Global, word: &str) -> Result<Option<Octets>, Memory>
    ensures exact { IfOk result (λ name. name ≡ name_read word.now) }
    ensures fits { IfOk result (λ name. IfSome name (λ octets. IsTrue (is_name octets))) }
{
    read_one::<Name<3, 16>>(alloc, word)
}

#[tactic(auto, unfolding(crate::specs::Plan::pass_read))]
fn pass_of(alloc: Global, word: &str) -> Result<Option<Signing>, Memory>
    ensures { IfOk result (λ signing. signing ≡ pass_read word.now) }
{
    read_one::<PassWord>(alloc, word)
}

#[tactic(auto, unfolding(crate::specs::Plan::instance_read))]
fn instance_of(alloc: Global, word: &str) -> Result<Option<InstanceId>, Memory>
    ensures { IfOk result (λ instance. instance ≡ instance_read word.now) }
{
    read_one::<Identifier>(alloc, word)
}
