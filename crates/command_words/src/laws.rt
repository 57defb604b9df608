//! What command lines that are written out ask for, each law the contract of a function that does
//! nothing.
ghost use Rattle.std.specs.Prelude.{◌≡◌, ◌≢◌, ◌≤◌, ◌<◌, ℕ, List, [], ◌∷◌, length, codes, Some, None};
ghost use Rattle.command_words.specs.Spelled.{Asks, AsksNothing, one_by_one};
ghost use Rattle.command_words.specs.Words.{command_of};
ghost use Rattle.command_words.specs.declared.asked.Asked.TheVariants.{Cat, Run, Gen, Audit, Rotate, Tee, Eval};

/// How an option and its number are spelled.
pub fn chunks_are_spelled()
    ensures is_default { Asks (codes "cat a") (Cat 4096 (codes "a")) }
    ensures is_apart { Asks (codes "cat --chunk 4 a") (Cat 4 (codes "a")) }
    ensures is_attached { Asks (codes "cat --chunk=4 a") (Cat 4 (codes "a")) }
    ensures is_apart_behind { Asks (codes "cat a --chunk 4") (Cat 4 (codes "a")) }
    ensures is_attached_behind { Asks (codes "cat a --chunk=4") (Cat 4 (codes "a")) }
    ensures has_a_plus { Asks (codes "cat --chunk +0004 a") (Cat 4 (codes "a")) }
    ensures has_two_plus { AsksNothing (codes "cat --chunk ++4 a") }
    ensures is_attached_plus { Asks (codes "cat --chunk=+4 a") (Cat 4 (codes "a")) }
    ensures is_word { AsksNothing (codes "cat --chunk four a") }
    ensures is_attached_twice { AsksNothing (codes "cat --chunk=4=4 a") }
    ensures is_given_twice { AsksNothing (codes "cat --chunk=4 --chunk=4 a") }
    ensures is_given_before_and_behind { AsksNothing (codes "cat --chunk 4 a --chunk 5") }
    ensures is_empty { AsksNothing (codes "cat --chunk= a") }
    ensures is_without_a_value { AsksNothing (codes "cat a --chunk") }
    ensures has_the_path_for_its_value { AsksNothing (codes "cat --chunk a") }
    ensures is_negative { AsksNothing (codes "cat --chunk -4 a") }
    ensures has_a_hyphen_for_its_value { AsksNothing (codes "cat --chunk - a") }
    ensures is_behind_two_hyphens { AsksNothing (codes "cat --chunk -- 4 a") }
    ensures is_shortened { AsksNothing (codes "cat --chun 4 a") }
{}

/// The least and the most that a frame may have.
pub fn chunks_are_limited()
    ensures is_least { Asks (codes "cat --chunk 1 a") (Cat 1 (codes "a")) }
    ensures is_below_the_least { AsksNothing (codes "cat --chunk 0 a") }
    ensures is_most { Asks (codes "cat --chunk 65536 a") (Cat 65536 (codes "a")) }
    ensures is_above_the_most { AsksNothing (codes "cat --chunk 65537 a") }
    ensures is_beyond_64_bits { AsksNothing (codes "cat --chunk 18446744073709551620 a") }
{}

/// Which word is a path.
pub fn paths_are_words()
    ensures is_hyphen { Asks (codes "cat -") (Cat 4096 (codes "-")) }
    ensures is_behind_two_hyphens { Asks (codes "cat -- -a") (Cat 4096 (codes "-a")) }
    ensures is_two_hyphens { Asks (codes "cat -- --") (Cat 4096 (codes "--")) }
    ensures is_spelled_as_an_option { Asks (codes "cat -- --chunk=4") (Cat 4096 (codes "--chunk=4")) }
    ensures is_before_two_hyphens { Asks (codes "cat a --") (Cat 4096 (codes "a")) }
    ensures is_help { Asks (codes "cat help") (Cat 4096 (codes "help")) }
    ensures is_missing { AsksNothing (codes "cat") }
    ensures is_missing_behind_an_option { AsksNothing (codes "cat --chunk 4") }
    ensures is_missing_behind_two_hyphens { AsksNothing (codes "cat --") }
    ensures is_empty { AsksNothing (codes "cat ") }
    ensures is_one_of_two { AsksNothing (codes "cat a b") }
    ensures is_one_of_two_behind_two_hyphens { AsksNothing (codes "cat -- a --") }
    ensures is_short_option { AsksNothing (codes "cat -a") }
    ensures is_long_option { AsksNothing (codes "cat --- a") }
    ensures asks_for_help { AsksNothing (codes "cat --help") }
    ensures asks_shortly_for_help { AsksNothing (codes "cat -h") }
    ensures asks_for_the_version { AsksNothing (codes "cat --version") }
    ensures asks_shortly_for_the_version { AsksNothing (codes "cat -V") }
{}

/// Each word that doesn't begin with a hyphen is a path, unless it is too long.
pub fn paths_are_limited()
    ensures is_path { (c : ℕ) (rest : List ℕ) → c ≢ 45 → length rest ≤ 1023 → command_of (codes "cat" ∷ (c ∷ rest) ∷ []) ≡ Some (Cat 4096 (c ∷ rest)) }
    ensures is_too_long { (c : ℕ) (rest : List ℕ) → c ≢ 45 → 1023 < length rest → command_of (codes "cat" ∷ (c ∷ rest) ∷ []) ≡ None }
{}

/// How many streams may be open, as `run` is told.
pub fn runs_are_spelled()
    ensures is_default { Asks (codes "run") (Run None) }
    ensures is_default_before_two_hyphens { Asks (codes "run --") (Run None) }
    ensures is_apart { Asks (codes "run --max-open 4") (Run (Some 4)) }
    ensures is_attached { Asks (codes "run --max-open=+04") (Run (Some 4)) }
    ensures is_least { Asks (codes "run --max-open 1") (Run (Some 1)) }
    ensures is_below_the_least { AsksNothing (codes "run --max-open 0") }
    ensures is_most { Asks (codes "run --max-open 64") (Run (Some 64)) }
    ensures is_above_the_most { AsksNothing (codes "run --max-open 65") }
    ensures is_given_twice { AsksNothing (codes "run --max-open 4 --max-open 4") }
    ensures is_empty { AsksNothing (codes "run --max-open=") }
    ensures is_without_a_value { AsksNothing (codes "run --max-open") }
    ensures is_negative { AsksNothing (codes "run --max-open -4") }
    ensures is_shortened { AsksNothing (codes "run --max 4") }
    ensures is_the_option_of_cat { AsksNothing (codes "run --chunk 4") }
    ensures has_another_word { AsksNothing (codes "run a") }
    ensures has_a_hyphen { AsksNothing (codes "run -") }
    ensures has_a_word_behind_two_hyphens { AsksNothing (codes "run -- a") }
    ensures asks_for_help { AsksNothing (codes "run --help") }
    ensures asks_shortly_for_help { AsksNothing (codes "run -h") }
    ensures asks_for_the_version { AsksNothing (codes "run -V") }
{}

/// The three numbers of a case.
pub fn cases_are_spelled()
    ensures is_case { Asks (codes "gen 7 8 1000") (Gen 7 8 1000) }
    ensures is_behind_two_hyphens { Asks (codes "gen -- 7 8 1000") (Gen 7 8 1000) }
    ensures has_two_hyphens_within { Asks (codes "gen 7 -- 8 1000") (Gen 7 8 1000) }
    ensures is_before_two_hyphens { Asks (codes "gen 7 8 1000 --") (Gen 7 8 1000) }
    ensures has_a_plus { Asks (codes "gen +7 +08 +1000") (Gen 7 8 1000) }
    ensures has_zeros { Asks (codes "gen 0007 008 0") (Gen 7 8 0) }
    ensures has_two_words { AsksNothing (codes "gen 7 8") }
    ensures has_one_word { AsksNothing (codes "gen 7") }
    ensures has_no_word { AsksNothing (codes "gen") }
    ensures has_four_words { AsksNothing (codes "gen 7 8 1000 1") }
    ensures has_an_empty_word { AsksNothing (codes "gen 7 8 ") }
    ensures has_a_word_for_a_number { AsksNothing (codes "gen seven 8 1000") }
    ensures has_a_point { AsksNothing (codes "gen 7 8.0 1000") }
    ensures has_a_separator { AsksNothing (codes "gen 7 8 100_000") }
    ensures has_two_plus { AsksNothing (codes "gen ++7 8 1000") }
    ensures is_negative { AsksNothing (codes "gen -7 8 1000") }
    ensures is_negative_behind_two_hyphens { AsksNothing (codes "gen -- -7 8 1000") }
    ensures has_a_hyphen { AsksNothing (codes "gen - 8 1000") }
    ensures has_an_option { AsksNothing (codes "gen --seed 7 8 1000") }
    ensures has_the_option_of_cat { AsksNothing (codes "gen --chunk 4 7 8 1000") }
    ensures asks_for_help { AsksNothing (codes "gen --help") }
    ensures asks_shortly_for_help { AsksNothing (codes "gen -h") }
    ensures asks_for_the_version { AsksNothing (codes "gen -V") }
{}

/// The least and the most of each number.
pub fn cases_are_limited()
    ensures has_least_numbers { Asks (codes "gen 0 1 0") (Gen 0 1 0) }
    ensures has_most_numbers { Asks (codes "gen 4294967295 64 100000") (Gen 4294967295 64 100000) }
    ensures seed_is_above_the_most { AsksNothing (codes "gen 4294967296 1 0") }
    ensures seed_is_beyond_64_bits { AsksNothing (codes "gen 18446744073709551616 1 0") }
    ensures streams_are_below_the_least { AsksNothing (codes "gen 0 0 0") }
    ensures streams_are_above_the_most { AsksNothing (codes "gen 0 65 0") }
    ensures lines_are_above_the_most { AsksNothing (codes "gen 0 1 100001") }
{}

/// An audit takes no further word.
pub fn audits_are_spelled()
    ensures is_audit { Asks (codes "audit") Audit }
    ensures is_before_two_hyphens { Asks (codes "audit --") Audit }
    ensures has_another_word { AsksNothing (codes "audit a") }
    ensures has_a_word_behind_two_hyphens { AsksNothing (codes "audit -- a") }
    ensures has_a_hyphen { AsksNothing (codes "audit -") }
    ensures has_an_empty_word { AsksNothing (codes "audit ") }
    ensures has_the_option_of_run { AsksNothing (codes "audit --max-open 4") }
    ensures is_shortened { AsksNothing (codes "audi") }
    ensures is_longer { AsksNothing (codes "audits") }
    ensures is_capital { AsksNothing (codes "Audit") }
    ensures asks_for_help { AsksNothing (codes "audit --help") }
    ensures asks_shortly_for_help { AsksNothing (codes "audit -h") }
    ensures asks_for_the_version { AsksNothing (codes "audit -V") }
{}

/// How a rotation is spelled.
pub fn rotations_are_spelled()
    ensures is_apart { Asks (codes "rotate --bytes 4 a p") (Rotate 4 (codes "a") (codes "p")) }
    ensures is_attached { Asks (codes "rotate --bytes=4 a p") (Rotate 4 (codes "a") (codes "p")) }
    ensures is_between { Asks (codes "rotate a --bytes 4 p") (Rotate 4 (codes "a") (codes "p")) }
    ensures is_behind { Asks (codes "rotate a p --bytes=4") (Rotate 4 (codes "a") (codes "p")) }
    ensures has_a_plus { Asks (codes "rotate --bytes +04 a p") (Rotate 4 (codes "a") (codes "p")) }
    ensures has_hyphens { Asks (codes "rotate --bytes 4 - -") (Rotate 4 (codes "-") (codes "-")) }
    ensures is_before_two_hyphens { Asks (codes "rotate --bytes 4 -- -a --") (Rotate 4 (codes "-a") (codes "--")) }
    ensures has_one_word_twice { Asks (codes "rotate --bytes 4 a a") (Rotate 4 (codes "a") (codes "a")) }
    ensures has_no_number { AsksNothing (codes "rotate a p") }
    ensures has_no_value { AsksNothing (codes "rotate a p --bytes") }
    ensures has_an_empty_value { AsksNothing (codes "rotate --bytes= a p") }
    ensures has_a_word_for_a_number { AsksNothing (codes "rotate --bytes four a p") }
    ensures has_a_unit { AsksNothing (codes "rotate --bytes 4k a p") }
    ensures is_negative { AsksNothing (codes "rotate --bytes -4 a p") }
    ensures is_given_twice { AsksNothing (codes "rotate --bytes 4 --bytes 4 a p") }
    ensures is_shortened { AsksNothing (codes "rotate --byte 4 a p") }
    ensures is_a_number_alone { AsksNothing (codes "rotate 4 a p") }
    ensures has_no_prefix { AsksNothing (codes "rotate --bytes 4 a") }
    ensures has_no_word { AsksNothing (codes "rotate --bytes 4") }
    ensures has_three_words { AsksNothing (codes "rotate --bytes 4 a p q") }
    ensures has_an_empty_path { AsksNothing (codes "rotate --bytes 4  p") }
    ensures has_an_empty_prefix { AsksNothing (codes "rotate --bytes 4 a ") }
    ensures has_a_short_option { AsksNothing (codes "rotate --bytes 4 -a p") }
    ensures has_the_option_of_cat { AsksNothing (codes "rotate --chunk 4 a p") }
    ensures asks_for_help { AsksNothing (codes "rotate --help") }
    ensures asks_shortly_for_help { AsksNothing (codes "rotate -h") }
    ensures asks_for_the_version { AsksNothing (codes "rotate -V") }
{}

/// The least and the most that a file of a rotation may have.
pub fn rotations_are_limited()
    ensures is_least { Asks (codes "rotate --bytes 1 a p") (Rotate 1 (codes "a") (codes "p")) }
    ensures is_below_the_least { AsksNothing (codes "rotate --bytes 0 a p") }
    ensures is_most { Asks (codes "rotate --bytes 1000000000 a p") (Rotate 1000000000 (codes "a") (codes "p")) }
    ensures is_above_the_most { AsksNothing (codes "rotate --bytes 1000000001 a p") }
    ensures is_beyond_64_bits { AsksNothing (codes "rotate --bytes 18446744073709551620 a p") }
{}

/// A path that is the name of a file that would be made is refused, and no other one.
pub fn rotations_spare_their_source()
    ensures is_first { AsksNothing (codes "rotate --bytes 4 p.0 p") }
    ensures is_last { AsksNothing (codes "rotate --bytes 4 p.1023 p") }
    ensures is_behind_the_last { Asks (codes "rotate --bytes 4 p.1024 p") (Rotate 4 (codes "p.1024") (codes "p")) }
    ensures has_a_leading_zero { Asks (codes "rotate --bytes 4 p.07 p") (Rotate 4 (codes "p.07") (codes "p")) }
    ensures has_two_zeros { Asks (codes "rotate --bytes 4 p.00 p") (Rotate 4 (codes "p.00") (codes "p")) }
    ensures has_a_plus { Asks (codes "rotate --bytes 4 p.+7 p") (Rotate 4 (codes "p.+7") (codes "p")) }
    ensures has_nothing_behind_the_dot { Asks (codes "rotate --bytes 4 p. p") (Rotate 4 (codes "p.") (codes "p")) }
    ensures has_no_dot { Asks (codes "rotate --bytes 4 p7 p") (Rotate 4 (codes "p7") (codes "p")) }
    ensures has_another_mark { Asks (codes "rotate --bytes 4 p-7 p") (Rotate 4 (codes "p-7") (codes "p")) }
    ensures has_another_prefix { Asks (codes "rotate --bytes 4 q.7 p") (Rotate 4 (codes "q.7") (codes "p")) }
    ensures has_a_longer_prefix { Asks (codes "rotate --bytes 4 pp.7 p") (Rotate 4 (codes "pp.7") (codes "p")) }
    ensures has_more_behind { Asks (codes "rotate --bytes 4 p.7.7 p") (Rotate 4 (codes "p.7.7") (codes "p")) }
    ensures has_that_prefix { AsksNothing (codes "rotate --bytes 4 p.7.7 p.7") }
{}

/// How branches are spelled: each word behind the path is one, also an empty one.
pub fn tees_are_spelled()
    ensures is_one { Asks (codes "tee a lines|count") (Tee 4096 (codes "a") (codes "lines|count" ∷ [])) }
    ensures are_two { Asks (codes "tee a hex utf8|lines") (Tee 4096 (codes "a") (codes "hex" ∷ codes "utf8|lines" ∷ [])) }
    ensures is_empty { Asks (codes "tee a ") (Tee 4096 (codes "a") ([] ∷ [])) }
    ensures means_nothing { Asks (codes "tee a no|step") (Tee 4096 (codes "a") (codes "no|step" ∷ [])) }
    ensures is_apart { Asks (codes "tee --chunk 4 a hex") (Tee 4 (codes "a") (codes "hex" ∷ [])) }
    ensures is_between { Asks (codes "tee a --chunk=4 hex") (Tee 4 (codes "a") (codes "hex" ∷ [])) }
    ensures is_between_branches { Asks (codes "tee a hex --chunk 4 lower") (Tee 4 (codes "a") (codes "hex" ∷ codes "lower" ∷ [])) }
    ensures is_behind { Asks (codes "tee a hex --chunk=+04") (Tee 4 (codes "a") (codes "hex" ∷ [])) }
    ensures is_behind_two_hyphens { Asks (codes "tee -- -a -b --chunk") (Tee 4096 (codes "-a") (codes "-b" ∷ codes "--chunk" ∷ [])) }
    ensures has_no_branch { AsksNothing (codes "tee a") }
    ensures has_no_word { AsksNothing (codes "tee") }
    ensures has_an_empty_path { AsksNothing (codes "tee  hex") }
    ensures has_no_value { AsksNothing (codes "tee a hex --chunk") }
    ensures is_given_twice { AsksNothing (codes "tee --chunk 4 a hex --chunk 4") }
    ensures is_shortened { AsksNothing (codes "tee --chun 4 a hex") }
    ensures has_a_short_option { AsksNothing (codes "tee a -b") }
    ensures asks_for_help { AsksNothing (codes "tee --help") }
{}

/// The least and the most of a piece, and the most branches.
pub fn tees_are_limited()
    ensures is_least { Asks (codes "tee --chunk 1 a b") (Tee 1 (codes "a") (codes "b" ∷ [])) }
    ensures is_below_the_least { AsksNothing (codes "tee --chunk 0 a b") }
    ensures is_most { Asks (codes "tee --chunk 65536 a b") (Tee 65536 (codes "a") (codes "b" ∷ [])) }
    ensures is_above_the_most { AsksNothing (codes "tee --chunk 65537 a b") }
    ensures has_sixteen { Asks (codes "tee a 0 1 2 3 4 5 6 7 8 9 a b c d e f") (Tee 4096 (codes "a") (one_by_one (codes "0123456789abcdef"))) }
    ensures has_seventeen { AsksNothing (codes "tee a 0 1 2 3 4 5 6 7 8 9 a b c d e f g") }
{}

/// How an evaluation is spelled.
pub fn evaluations_are_spelled()
    ensures is_default { Asks (codes "eval a lines|count") (Eval 4 256 (codes "a") (codes "lines|count")) }
    ensures is_empty { Asks (codes "eval a ") (Eval 4 256 (codes "a") []) }
    ensures means_nothing { Asks (codes "eval a no|step") (Eval 4 256 (codes "a") (codes "no|step")) }
    ensures has_both { Asks (codes "eval --jobs 2 --group 3 a hex") (Eval 2 3 (codes "a") (codes "hex")) }
    ensures has_both_behind { Asks (codes "eval a hex --group=+03 --jobs=02") (Eval 2 3 (codes "a") (codes "hex")) }
    ensures is_between { Asks (codes "eval a --jobs 2 hex") (Eval 2 256 (codes "a") (codes "hex")) }
    ensures is_behind_two_hyphens { Asks (codes "eval --group 3 -- -a --jobs") (Eval 4 3 (codes "-a") (codes "--jobs")) }
    ensures has_one_word { AsksNothing (codes "eval a") }
    ensures has_no_word { AsksNothing (codes "eval") }
    ensures has_three_words { AsksNothing (codes "eval a hex hex") }
    ensures has_an_empty_path { AsksNothing (codes "eval  hex") }
    ensures has_no_value { AsksNothing (codes "eval a hex --jobs") }
    ensures has_a_word_for_a_number { AsksNothing (codes "eval --jobs two a hex") }
    ensures is_given_twice { AsksNothing (codes "eval --jobs 2 --jobs 2 a hex") }
    ensures is_shortened { AsksNothing (codes "eval --job 2 a hex") }
    ensures has_the_option_of_tee { AsksNothing (codes "eval --chunk 4 a hex") }
    ensures asks_for_help { AsksNothing (codes "eval --help") }
{}

/// The least and the most of hands and of the lines of a group.
pub fn evaluations_are_limited()
    ensures has_one_hand { Asks (codes "eval --jobs 1 a b") (Eval 1 256 (codes "a") (codes "b")) }
    ensures has_no_hand { AsksNothing (codes "eval --jobs 0 a b") }
    ensures has_most_hands { Asks (codes "eval --jobs 64 a b") (Eval 64 256 (codes "a") (codes "b")) }
    ensures has_too_many_hands { AsksNothing (codes "eval --jobs 65 a b") }
    ensures has_one_line { Asks (codes "eval --group 1 a b") (Eval 4 1 (codes "a") (codes "b")) }
    ensures has_no_line { AsksNothing (codes "eval --group 0 a b") }
    ensures has_most_lines { Asks (codes "eval --group 65536 a b") (Eval 4 65536 (codes "a") (codes "b")) }
    ensures has_too_many_lines { AsksNothing (codes "eval --group 65537 a b") }
{}

/// Words that name no command.
pub fn other_words_mean_nothing()
    ensures is_no_word { command_of [] ≡ None }
    ensures is_empty { AsksNothing [] }
    ensures is_other { AsksNothing (codes "dog a") }
    ensures is_capital { AsksNothing (codes "Cat a") }
    ensures is_shortened { AsksNothing (codes "ca a") }
    ensures is_longer { AsksNothing (codes "cats a") }
    ensures is_option { AsksNothing (codes "--chunk 4 cat a") }
    ensures asks_for_help { AsksNothing (codes "--help") }
{}
