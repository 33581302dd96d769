//! Two rules in one walk.

ghost use Rattle.rl_rules.specs.Both.{both_pass, both_below};

use crate::walk::Rule;
use rl_syntax::numbered::Numbered;
use rl_syntax::word::Word;
use std::marker::PhantomData;

/// The rules `R` and `S` together. The context of a node is that of the one and that of the other.
pub(crate) struct Both<R: Rule, S: Rule> {
    first: PhantomData<R>,
    second: PhantomData<S>,
}

impl<R: Rule, S: Rule> Rule for Both<R, S> {
    type Above = (R::Above, S::Above);

    ghost test = { both_pass R.test S.test };

    ghost below = { both_below R.below S.below };

    #[inline(always)]
    fn test(above: Self::Above, word: Word, parts: &[Numbered]) -> bool {
        R::test(above.0, word, parts) && S::test(above.1, word, parts)
    }

    #[inline(always)]
    fn below(above: Self::Above, word: Word, index: usize) -> Self::Above {
        (
            R::below(above.0, word, index),
            S::below(above.1, word, index),
        )
    }
}
