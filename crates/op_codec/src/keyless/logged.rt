use super::{Codec, Operation};
use crate::{Same, ValueEncoding};
use log_model::Logged;
use tree_shape::Family;

impl<F: Family, V: Codec> Logged for Operation<F, V> {
    ghost use Rattle.std.specs.Prelude.{refl};
    ghost use Rattle.op_codec.specs.Meanings.{keyless_meaning};

    type Value = V::Value;

    ghost meaning = { keyless_meaning V.Codec.spelling };

    ghost spelled = { λ op. refl };

    fn commit_floor(&self) -> Option<u64> {
        match self {
            Operation::Append(_) => None,
            Operation::Commit(_, floor) => Some(floor.as_u64()),
        }
    }
}

impl<F: Family, V: ValueEncoding> Same for Operation<F, V>
where
    V::Value: Same,
{
    ghost use Rattle.std.specs.Prelude.{refl};
    ghost use Rattle.op_codec.specs.Meanings.{fieldwise_decides};

    ghost decides = { fieldwise_decides V.Value.eq _ (record {
      appends = λ v w. refl;
      commits = λ f g. refl;
      with_metadata = λ v w f g. refl;
      one_has = λ v f g. refl;
      other_has = λ w f g. refl;
      append_first = λ v n g. refl;
      commit_first = λ m f w. refl;
    }) V.Value.decides };
}
