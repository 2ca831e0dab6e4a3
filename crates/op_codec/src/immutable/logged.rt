use super::{Codec, Operation};
use crate::{Key, Same, ValueEncoding};
use log_model::Logged;
use tree_shape::Family;

impl<F: Family, K: Key, V: Codec<K>> Logged for Operation<F, K, V> {
    ghost use Rattle.std.specs.Prelude.{refl};
    ghost use Rattle.op_codec.specs.ImmutableMeanings.{immutable_meaning};

    type Value = V::Value;

    ghost meaning = { immutable_meaning V.Codec.spelling };

    ghost spelled = { λ op. refl };

    fn commit_floor(&self) -> Option<u64> {
        match self {
            Operation::Set(_, _) => None,
            Operation::Commit(_, floor) => Some(floor.as_u64()),
        }
    }
}

impl<F: Family, K: Key + Same, V: ValueEncoding> Same for Operation<F, K, V>
where
    V::Value: Same,
{
    ghost use Rattle.std.specs.Prelude.{refl};
    ghost use Rattle.op_codec.specs.ImmutableMeanings.{fieldwise_decides};

    ghost decides = { fieldwise_decides K.eq V.Value.eq _ (record {
      sets = λ k l v w. refl;
      commits = λ f g. refl;
      with_metadata = λ v w f g. refl;
      one_has = λ v f g. refl;
      other_has = λ w f g. refl;
      set_first = λ k v n g. refl;
      commit_first = λ m f l w. refl;
    }) K.decides V.Value.decides };
}
