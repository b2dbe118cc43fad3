//! Laws of the definitions, each the contract of a function with nothing to do.
ghost use Rattle.pim_candidate.specs.CandidacyLaws.{NotStandingChangesNothing, OrderStays};
ghost use Rattle.pim_candidate.specs.Laws.{OneOfTwoStays, OwnIsNotHeard};
ghost use Rattle.pim_candidate.specs.Runs.{AsAdvertising, AsDelayed, AsElected, AsHeld, AsNothing, AsStanding, AtMostOneBsr};
ghost use Rattle.pim_candidate.specs.SaySame.{FragmentsSaySame};
ghost use Rattle.pim_candidate.specs.Sound.{AllLearnTheSet, EmptyIsSound, SoundInTime, SoundStays};

/// A message of the router's own address changes nothing.
#[tactic(auto, using(crate::proofs::Weights::own_is_not_heard))]
pub fn own_is_not_heard()
    ensures { OwnIsNotHeard }
{}

/// Of two elected BSRs that hear each other, one stays it.
#[tactic(auto, using(crate::proofs::Weights::one_of_two_stays))]
pub fn one_of_two_stays()
    ensures { OneOfTwoStays }
{}

/// Any router that takes all fragments of what a BSR says has just what it says.
#[tactic(auto, using(crate::proofs::SaySame::fragments_say_same))]
pub fn fragments_say_same()
    ensures { FragmentsSaySame }
{}

/// What an elected BSR holds is in order to begin with.
pub fn empty_is_sound()
    ensures { EmptyIsSound }
{}

/// What an elected BSR holds stays in order whatever advertisement comes.
pub fn sound_stays()
    ensures { SoundStays }
{}

/// What an elected BSR holds stays in order however time passes.
pub fn sound_in_time()
    ensures { SoundInTime }
{}

/// Any router that takes all fragments of what an elected BSR says has just that.
pub fn all_learn_the_set()
    ensures { AllLearnTheSet }
{}

/// A router that stands as nothing does what its listener does, and nothing else.
pub fn not_standing()
    ensures { NotStandingChangesNothing }
{}

/// What a candidacy holds of RPs stays in order whatever packet comes, and however time passes.
pub fn order_stays()
    ensures { OrderStays }
{}

/// A worked run: a router that stands as nothing.
#[tactic(auto, unfolding(crate::specs::Candidacy::candidacy_end))]
pub fn as_nothing()
    ensures { AsNothing }
{}

/// A worked run: a router that stands as a BSR and as an RP.
#[tactic(auto, unfolding(crate::specs::Candidacy::candidacy_end, crate::specs::Candidacy::followed, crate::specs::Candidacy::advertisement_bytes, crate::specs::Candidacy::told_to, crate::specs::Candidacy::advertised_to, crate::specs::Candidacy::own_messages, crate::specs::Candidacy::known_after, crate::specs::Candidacy::originates, crate::specs::Candidacy::set_passed, crate::specs::Candidacy::election_passed, crate::specs::Candidacy::tells, crate::specs::Candidacy::advertising_passed, crate::specs::Candidacy::time_passed, crate::specs::Election::whole_log, crate::specs::Election::milli_log, crate::specs::Election::override_delay, crate::specs::Election::expired, crate::specs::Election::hastened, crate::specs::Advertising::with_bsr, crate::specs::Advertising::sent, crate::specs::RpSet::with_range, crate::specs::RpSet::firsts, crate::specs::RpSet::gone_after, crate::specs::RpSet::said, crate::specs::RpSet::first_end, crate::specs::RpSet::has_held, crate::specs::RpSet::same_rps, pim_bsr::specs::Standing::with_own, pim_bsr::specs::Standing::own_taken, pim_bsr::specs::Standing::own_sent, pim_bsr::specs::Table::at_time, pim_bsr::specs::Table::with_message, pim_bsr::specs::Table::with_ranges, pim_bsr::specs::Table::kept_count, pim_ip::specs::Checksum::sum_of_words, pim_ip::specs::Checksum::ones, pim_ip::specs::Checksum::sum16, pim_ip::specs::Checksum::with_checksum, pim_wire::specs::Encoded::unicast_test, pim_wire::specs::Encoded::source_test, pim_wire::specs::Encoded::group_test, pim_wire::specs::Encoded::pim_text, pim_bootstrap::specs::Advertisements::advertised_test, pim_bootstrap::specs::Advertisements::all_advertised_test, pim_bootstrap::specs::Advertisements::all_advertised_at, pim_bootstrap::specs::Advertisements::advertised_prefix, pim_bootstrap::specs::Advertisements::advertisement_test, pim_bootstrap::specs::Advertisements::advertisement_of, pim_bootstrap::specs::Advertisements::advertisement_text, pim_bootstrap::specs::Bootstraps::ranges_test, pim_bootstrap::specs::Bootstraps::ranges_at, pim_bootstrap::specs::Bootstraps::bootstrap_test, pim_bootstrap::specs::Bootstraps::bootstrap_of, pim_bootstrap::specs::Bootstraps::range_text, pim_bootstrap::specs::Bootstraps::bootstrap_text, pim_bootstrap::specs::Fragments::pieces_of, pim_bootstrap::specs::Fragments::has_room, pim_bootstrap::specs::Fragments::with_piece, pim_bootstrap::specs::Fragments::packing, pim_bootstrap::specs::Fragments::fragments))]
pub fn as_standing()
    ensures { AsStanding }
{}

/// A worked run: delays of an election.
#[tactic(auto, unfolding(crate::specs::Election::whole_log, crate::specs::Election::milli_log, crate::specs::Election::override_delay))]
pub fn as_delayed()
    ensures { AsDelayed }
{}

/// A worked run: what a candidate BSR does with messages and when its timer expires.
#[tactic(auto, unfolding(crate::specs::Election::is_at_least, crate::specs::Election::whole_log, crate::specs::Election::milli_log, crate::specs::Election::override_delay, crate::specs::Election::heard, crate::specs::Election::expired))]
pub fn as_elected()
    ensures { AsElected }
{}

/// A worked run: two candidates whose messages arrive.
#[tactic(auto, unfolding(crate::specs::Election::is_at_least, crate::specs::Election::whole_log, crate::specs::Election::milli_log, crate::specs::Election::override_delay, crate::specs::Election::heard, crate::specs::Election::expired, crate::specs::Network::after_events))]
pub fn at_most_one_bsr()
    ensures { AtMostOneBsr }
{}

/// A worked run: when a candidate RP advertises itself.
#[tactic(auto, unfolding(crate::specs::Advertising::with_bsr, crate::specs::Advertising::sent))]
pub fn as_advertising()
    ensures { AsAdvertising }
{}

/// A worked run: what an elected BSR holds, and says.
#[tactic(auto, unfolding(pim_bootstrap::specs::Advertisements::advertised_prefix, crate::specs::RpSet::with_range, crate::specs::RpSet::firsts, crate::specs::RpSet::gone_after, crate::specs::RpSet::said))]
pub fn as_held()
    ensures { AsHeld }
{}
