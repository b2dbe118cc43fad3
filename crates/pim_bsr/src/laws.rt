//! Laws of the definitions, each the contract of a function with nothing to do.
ghost use Rattle.pim_bsr.specs.Laws.{CameFromRpf, CandidatesAlone, CandidatesAreAccepted, JoinedIsRun, LastsItsTime, OtherRangesStay, RangesAlone, SameEverywhere, SentOnOnce, StaticAlone, StaticFirst, TimeInSteps, WasPreferred, WithoutMessageNothingChanges, WithoutSettingNothingChanges};
ghost use Rattle.pim_bsr.specs.Runs.{AsEnded, AsHeard, AsLeft, AsMoved, AsOffered, AsOfferedLeft, AsOwn, AsPrinted, AsWorked, BsrsAreApart, MaskIsOfAll};
ghost use Rattle.pim_bsr.specs.Saved.{KnownReadingIsText, KnownTextIsRead, RestoredHavePriorities, RestoredIsSound, SavedIsRestored};
ghost use Rattle.pim_bsr.specs.SavedRuns.{ByGroupHasBytes, SavedListenerHasBytes, TwiceIsRefused};
ghost use Rattle.pim_bsr.specs.Sound.{GivenIsAccepted, OwnSoundStays, SoundConfigured, SoundInTime, SoundStays, SoundWhateverComes};
ghost use Rattle.pim_bsr.specs.Standing.{OwnIsTaken};

/// Before the first message the router has the configured ranges alone.
#[tactic(auto, using(crate::proofs::Ranges::static_first))]
pub fn static_first()
    ensures { StaticFirst }
{}

/// When the last holdtime is over the router has the configured ranges alone.
pub fn static_alone()
    ensures { StaticAlone }
{}

/// A message that counts, without the No-Forward bit, came from the RPF neighbour of its BSR.
#[tactic(auto, using(crate::proofs::Counts::came_from_rpf))]
pub fn came_from_rpf()
    ensures { CameFromRpf }
{}

/// A message that counts where a BSR is elected is of that one, or of one with more weight.
#[tactic(auto, using(crate::proofs::Counts::was_preferred))]
pub fn was_preferred()
    ensures { WasPreferred }
{}

/// A fragment leaves the ranges that it doesn't name, but for their hash mask.
#[tactic(auto, using(crate::proofs::Others::other_ranges_stay))]
pub fn other_ranges_stay()
    ensures { OtherRangesStay }
{}

/// A message without the No-Forward bit leaves once on each interface with neighbours; a repetition doesn't where it came.
#[tactic(auto, using(crate::proofs::Counts::sent_on_once))]
pub fn sent_on_once()
    ensures { SentOnOnce }
{}

/// The router refuses what it is given exactly where it would refuse the configured ranges.
#[tactic(auto, using(crate::proofs::Accepted::given_is_accepted))]
pub fn given_is_accepted()
    ensures { GivenIsAccepted }
{}

/// Whatever messages come, however time passes and whatever is configured, the router takes the candidates that it is given.
#[tactic(auto, using(crate::proofs::Offered::candidates_are_accepted))]
pub fn candidates_are_accepted()
    ensures { CandidatesAreAccepted }
{}

/// What is known stays sound when time passes.
pub fn sound_in_time()
    ensures { SoundInTime }
{}

/// What is known stays sound whatever message comes.
pub fn sound_stays()
    ensures { SoundStays }
{}

/// What is known stays sound whatever message of the router's own is taken.
pub fn own_sound_stays()
    ensures { OwnSoundStays }
{}

/// What an elected BSR's own router learns of its messages is what any router learns that takes them.
pub fn own_is_taken()
    ensures { OwnIsTaken }
{}

/// What is known stays sound whatever packet comes.
pub fn sound_whatever_comes()
    ensures { SoundWhateverComes }
{}

/// What is known stays sound with another configuration.
pub fn sound_configured()
    ensures { SoundConfigured }
{}

/// A range has the same RP, and the same candidates, as long as all its RPs last, whatever happens that leaves it.
#[tactic(auto, using(crate::proofs::Lasting::lasts_its_time))]
pub fn lasts_its_time()
    ensures { LastsItsTime }
{}

/// However time is cut into pieces, the same is known.
#[tactic(auto, using(crate::proofs::Lasting::time_in_steps))]
pub fn time_in_steps()
    ensures { TimeInSteps }
{}

/// Routers that took the same messages are given the same RPs, while none of them expires.
pub fn same_everywhere()
    ensures { SameEverywhere }
{}

/// A router behind the front is the specification's router, with the events that the front gives it.
pub fn joined_is_run()
    ensures { JoinedIsRun }
{}

/// Where an RP is chosen for a whole range, the router is given no candidates but those that come.
#[tactic(auto, using(crate::proofs::Alone::ranges_alone))]
pub fn ranges_alone()
    ensures { RangesAlone }
{}

/// Where an RP is chosen for each group, the router is given the configured ranges as they come, and no others.
#[tactic(auto, using(crate::proofs::Alone::candidates_alone))]
pub fn candidates_alone()
    ensures { CandidatesAlone }
{}

/// Without a front the router is the router alone.
#[tactic(auto, using(crate::proofs::JoinedLaws::without_setting))]
pub fn without_setting_nothing_changes()
    ensures { WithoutSettingNothingChanges }
{}

/// Where no Bootstrap comes, and no RP is in force, the router behind the front is the router alone.
#[tactic(auto, using(crate::proofs::JoinedLaws::without_message))]
pub fn without_message_nothing_changes()
    ensures { WithoutMessageNothingChanges }
{}

/// A worked run.
#[tactic(auto, unfolding(crate::specs::Hearing::after_message, crate::specs::Table::at_time, crate::specs::Table::configured, crate::specs::Table::given_of, crate::specs::Table::is_configured, crate::specs::Table::parts_after, crate::specs::Table::with_message, crate::specs::Table::with_range, crate::specs::Table::with_ranges, pim_model::specs::Candidates::hash_value, crate::specs::Choice::is_better, crate::specs::Choice::is_chosen, crate::specs::Choice::range_value))]
pub fn as_worked()
    ensures { AsWorked }
{}

/// A worked run: messages of the router's own.
#[tactic(auto, unfolding(crate::specs::Standing::with_own, crate::specs::Table::kept_count, crate::specs::Table::parts_after, crate::specs::Table::with_message, crate::specs::Table::with_range, crate::specs::Table::with_ranges, pim_model::specs::Candidates::masked))]
pub fn as_own()
    ensures { AsOwn }
{}

/// Values of the hash function that another program printed.
#[tactic(auto, unfolding(pim_model::specs::Candidates::hash_value))]
pub fn as_printed()
    ensures { AsPrinted }
{}

/// A worked run: which messages count.
#[tactic(auto, unfolding(crate::specs::Hearing::heard, crate::specs::Hearing::why_not, crate::specs::Hearing::why_checked, crate::specs::Hearing::why_sender, crate::specs::Hearing::sent_on, crate::specs::Hearing::is_sent_on, crate::specs::Table::is_preferred, crate::specs::Table::kept_count, crate::specs::Table::same_ranges, crate::specs::Table::has_range, crate::specs::Hearing::after_message, crate::specs::Table::at_time, crate::specs::Table::configured, crate::specs::Table::given_of, crate::specs::Table::is_configured, crate::specs::Table::parts_after, crate::specs::Table::with_message, crate::specs::Table::with_range, crate::specs::Table::with_ranges, pim_model::specs::Candidates::hash_value, crate::specs::Choice::is_better, crate::specs::Choice::is_chosen, crate::specs::Choice::range_value))]
pub fn as_heard()
    ensures { AsHeard }
{}

/// A worked run: fragments of two BSRs with one tag.
#[tactic(auto, unfolding(crate::specs::Hearing::after_message, crate::specs::Table::at_time, crate::specs::Table::configured, crate::specs::Table::given_of, crate::specs::Table::is_configured, crate::specs::Table::parts_after, crate::specs::Table::with_message, crate::specs::Table::with_range, crate::specs::Table::with_ranges, pim_model::specs::Candidates::hash_value, crate::specs::Choice::is_better, crate::specs::Choice::is_chosen, crate::specs::Choice::range_value))]
pub fn bsrs_are_apart()
    ensures { BsrsAreApart }
{}

/// A worked run: the hash mask of a message is that of all ranges.
#[tactic(auto, unfolding(crate::specs::Hearing::after_message, crate::specs::Table::at_time, crate::specs::Table::configured, crate::specs::Table::given_of, crate::specs::Table::is_configured, crate::specs::Table::parts_after, crate::specs::Table::with_message, crate::specs::Table::with_range, crate::specs::Table::with_ranges, pim_model::specs::Candidates::hash_value, crate::specs::Choice::is_better, crate::specs::Choice::is_chosen, crate::specs::Choice::range_value))]
pub fn mask_is_of_all()
    ensures { MaskIsOfAll }
{}

/// A worked run that meets the premises of [`lasts_its_time`].
#[tactic(auto, unfolding(crate::specs::Hearing::heard, crate::specs::Hearing::why_not, crate::specs::Hearing::why_checked, crate::specs::Hearing::why_sender, crate::specs::Hearing::sent_on, crate::specs::Hearing::is_sent_on, crate::specs::Table::is_preferred, crate::specs::Table::kept_count, crate::specs::Table::same_ranges, crate::specs::Table::has_range, crate::specs::Laws::AllLeave, crate::specs::Laws::all_after, crate::specs::Hearing::after_message, crate::specs::Table::at_time, crate::specs::Table::configured, crate::specs::Table::given_of, crate::specs::Table::is_configured, crate::specs::Table::parts_after, crate::specs::Table::with_message, crate::specs::Table::with_range, crate::specs::Table::with_ranges, pim_model::specs::Candidates::hash_value, crate::specs::Choice::is_better, crate::specs::Choice::is_chosen, crate::specs::Choice::range_value))]
pub fn as_left()
    ensures { AsLeft }
{}

/// A worked run: the candidates of a range, and the RP of each group.
#[tactic(auto, unfolding(pim_model::specs::Unicast::rp_among, pim_model::specs::Candidates::chosen_among, pim_model::specs::Candidates::chosen, pim_model::specs::Candidates::is_chosen, pim_ip::specs::Prefixes::contains, pim_ip::specs::Prefixes::longest_match, pim_ip::specs::Prefixes::longer, crate::specs::Hearing::after_message, crate::specs::Table::at_time, crate::specs::Table::configured, crate::specs::Table::given_of, crate::specs::Table::is_configured, crate::specs::Table::parts_after, crate::specs::Table::with_message, crate::specs::Table::with_range, crate::specs::Table::with_ranges, pim_model::specs::Candidates::hash_value, crate::specs::Choice::is_better, crate::specs::Choice::is_chosen, crate::specs::Choice::range_value))]
pub fn as_offered()
    ensures { AsOffered }
{}

/// A worked run: what gives the router other candidates, and what another RP of the range.
#[tactic(auto, unfolding(crate::specs::Hearing::heard, crate::specs::Hearing::why_not, crate::specs::Hearing::why_checked, crate::specs::Hearing::why_sender, crate::specs::Hearing::sent_on, crate::specs::Hearing::is_sent_on, crate::specs::Table::is_preferred, crate::specs::Table::kept_count, crate::specs::Table::same_ranges, crate::specs::Table::has_range, crate::specs::Table::same_candidates, crate::specs::Table::has_candidate, crate::specs::Hearing::after_message, crate::specs::Table::at_time, crate::specs::Table::configured, crate::specs::Table::given_of, crate::specs::Table::is_configured, crate::specs::Table::parts_after, crate::specs::Table::with_message, crate::specs::Table::with_range, crate::specs::Table::with_ranges, pim_model::specs::Candidates::hash_value, crate::specs::Choice::is_better, crate::specs::Choice::is_chosen, crate::specs::Choice::range_value))]
pub fn as_moved()
    ensures { AsMoved }
{}

/// A worked run: the end of RPs, and configured ranges beside which there is less room.
#[tactic(auto, unfolding(crate::specs::Joined::time_given, crate::specs::Joined::first_end, crate::specs::Table::same_ranges, crate::specs::Table::has_range, crate::specs::Table::same_candidates, crate::specs::Table::has_candidate, crate::specs::Hearing::after_message, crate::specs::Table::at_time, crate::specs::Table::configured, crate::specs::Table::given_of, crate::specs::Table::is_configured, crate::specs::Table::parts_after, crate::specs::Table::with_message, crate::specs::Table::with_range, crate::specs::Table::with_ranges, pim_model::specs::Candidates::hash_value, crate::specs::Choice::is_better, crate::specs::Choice::is_chosen, crate::specs::Choice::range_value))]
pub fn as_ended()
    ensures { AsEnded }
{}

/// A worked run that meets the premises of [`lasts_its_time`], with candidates.
#[tactic(auto, unfolding(crate::specs::Hearing::heard, crate::specs::Hearing::why_not, crate::specs::Hearing::why_checked, crate::specs::Hearing::why_sender, crate::specs::Hearing::sent_on, crate::specs::Hearing::is_sent_on, crate::specs::Table::is_preferred, crate::specs::Table::kept_count, crate::specs::Table::same_ranges, crate::specs::Table::has_range, crate::specs::Table::same_candidates, crate::specs::Table::has_candidate, crate::specs::Laws::AllLeave, crate::specs::Laws::all_after, crate::specs::Hearing::after_message, crate::specs::Table::at_time, crate::specs::Table::configured, crate::specs::Table::given_of, crate::specs::Table::is_configured, crate::specs::Table::parts_after, crate::specs::Table::with_message, crate::specs::Table::with_range, crate::specs::Table::with_ranges, pim_model::specs::Candidates::hash_value, crate::specs::Choice::is_better, crate::specs::Choice::is_chosen, crate::specs::Choice::range_value))]
pub fn as_offered_left()
    ensures { AsOfferedLeft }
{}

/// The text of what is known is read as this.
#[tactic(auto, using(crate::proofs::Spelled::known_text_is_read))]
pub fn known_text_is_read()
    ensures { KnownTextIsRead }
{}

/// What is read has the bytes as its one text.
#[tactic(auto, using(crate::proofs::Spelled::known_reading_is_text))]
pub fn known_reading_is_text()
    ensures { KnownReadingIsText }
{}

/// A listener that is made of saved bytes knows what was known.
#[tactic(auto, using(crate::proofs::Restored::saved_is_restored))]
pub fn saved_is_restored()
    ensures { SavedIsRestored }
{}

/// Whatever bytes a listener is made of, what it knows is sound.
#[tactic(auto, using(crate::proofs::Restored::restored_is_sound))]
pub fn restored_is_sound()
    ensures { RestoredIsSound }
{}

/// Whatever bytes a listener is made of, the priorities of what it knows are bytes.
pub fn restored_have_priorities()
    ensures { RestoredHavePriorities }
{}

/// A worked run: the bytes of what a listener knows.
#[tactic(auto, unfolding(pim_saved::specs::Crc::entry, pim_saved::specs::Crc::shifted, pim_saved::specs::Crc::with_byte, pim_saved::specs::Reading::items_at, pim_saved::specs::Reading::prefix_at, pim_saved::specs::Reading::range_at, pim_saved::specs::Reading::undamaged, pim_saved::specs::Text::prefix_text, pim_saved::specs::Text::range_text, pim_ip::specs::Prefixes::is_host_clear, pim_model::specs::Limits::is_rp_range, crate::specs::Text::learned_text, crate::specs::Text::candidate_text, crate::specs::Text::part_text, crate::specs::Text::elected_text, crate::specs::Text::election_text, crate::specs::Text::configured_text, crate::specs::Text::table_text, crate::specs::Text::said_text, crate::specs::Text::last_text, crate::specs::Text::body_text, crate::specs::Text::front_text, crate::specs::Text::known_text, crate::specs::Reading::learned_at, crate::specs::Reading::candidate_at, crate::specs::Reading::part_at, crate::specs::Reading::elected_at, crate::specs::Reading::election_at, crate::specs::Reading::configured_at, crate::specs::Reading::table_at, crate::specs::Reading::said_at, crate::specs::Reading::last_at, crate::specs::Reading::parts_at, crate::specs::Reading::known_reading, crate::specs::Reading::is_sound, crate::specs::Reading::restored, crate::specs::Sound::are_apart, crate::specs::Table::kept_count))]
pub fn saved_listener_has_bytes()
    ensures { SavedListenerHasBytes }
{}

/// A worked run: the bytes, where an RP is chosen for each group.
#[tactic(auto, unfolding(pim_saved::specs::Crc::entry, pim_saved::specs::Crc::shifted, pim_saved::specs::Crc::with_byte, pim_saved::specs::Reading::items_at, pim_saved::specs::Reading::prefix_at, pim_saved::specs::Reading::range_at, pim_saved::specs::Reading::undamaged, pim_saved::specs::Text::prefix_text, pim_saved::specs::Text::range_text, pim_ip::specs::Prefixes::is_host_clear, pim_model::specs::Limits::is_rp_range, crate::specs::Text::learned_text, crate::specs::Text::candidate_text, crate::specs::Text::part_text, crate::specs::Text::elected_text, crate::specs::Text::election_text, crate::specs::Text::configured_text, crate::specs::Text::table_text, crate::specs::Text::said_text, crate::specs::Text::last_text, crate::specs::Text::body_text, crate::specs::Text::front_text, crate::specs::Text::known_text, crate::specs::Reading::learned_at, crate::specs::Reading::candidate_at, crate::specs::Reading::part_at, crate::specs::Reading::elected_at, crate::specs::Reading::election_at, crate::specs::Reading::configured_at, crate::specs::Reading::table_at, crate::specs::Reading::said_at, crate::specs::Reading::last_at, crate::specs::Reading::parts_at, crate::specs::Reading::known_reading, crate::specs::Reading::is_sound, crate::specs::Reading::restored, crate::specs::Sound::are_apart, crate::specs::Table::kept_count))]
pub fn by_group_has_bytes()
    ensures { ByGroupHasBytes }
{}

/// A worked run: an RP that stands twice, and one with a hash mask that no address can have.
#[tactic(auto, unfolding(pim_saved::specs::Crc::entry, pim_saved::specs::Crc::shifted, pim_saved::specs::Crc::with_byte, pim_saved::specs::Reading::items_at, pim_saved::specs::Reading::prefix_at, pim_saved::specs::Reading::range_at, pim_saved::specs::Reading::undamaged, pim_saved::specs::Text::prefix_text, pim_saved::specs::Text::range_text, pim_ip::specs::Prefixes::is_host_clear, pim_model::specs::Limits::is_rp_range, crate::specs::Text::learned_text, crate::specs::Text::candidate_text, crate::specs::Text::part_text, crate::specs::Text::elected_text, crate::specs::Text::election_text, crate::specs::Text::configured_text, crate::specs::Text::table_text, crate::specs::Text::said_text, crate::specs::Text::last_text, crate::specs::Text::body_text, crate::specs::Text::front_text, crate::specs::Text::known_text, crate::specs::Reading::learned_at, crate::specs::Reading::candidate_at, crate::specs::Reading::part_at, crate::specs::Reading::elected_at, crate::specs::Reading::election_at, crate::specs::Reading::configured_at, crate::specs::Reading::table_at, crate::specs::Reading::said_at, crate::specs::Reading::last_at, crate::specs::Reading::parts_at, crate::specs::Reading::known_reading, crate::specs::Reading::is_sound, crate::specs::Reading::restored, crate::specs::Sound::are_apart, crate::specs::Table::kept_count))]
pub fn twice_is_refused()
    ensures { TwiceIsRefused }
{}
