//! Theorems on runs and histories, said of cores. There is nothing to run.
ghost use Rattle.hp_base.specs.declared.config.Config.{Config};
ghost use Rattle.hp_laws.specs.HistoryLaws.{HasHistory, FewOwnSteps, KeepsPromises, PromisedNeverLacks, PromisedIsServed};
ghost use Rattle.hp_laws.specs.HistoryLaws.{LoadsTellLastWords, LoadsEndWithLastWords};
ghost use Rattle.hp_sequential.specs.Meaning.{CallsAloneMean};
ghost use Rattle.hp_core.specs.State.{as_state};
ghost use Rattle.hp_core.specs.RunLaws.{FramesDontShow};

use crate::core_state::Core;

impl Core {
    /// Where no call is in flight, a call that an alive task begins here, and that runs alone by granted steps to its
    /// end, has the answer and leads to the state that a table tells of its operation (`hp_sequential`).
    pub fn a_call_alone_has_its_plain_meaning(&self)
        ensures { CallsAloneMean (as_state self.now) }
    {
        hp_sequential::a_call_alone_has_its_plain_meaning();
        let _ = &self.config;
    }

    /// Frames don't show: two cores of one config to which the same events happened have the same outcomes, and are
    /// equal up to a renaming of frames.
    pub fn frames_do_not_show()
        ensures { (config : Config) → FramesDontShow config }
    {
        hp_sequential::frames_do_not_show();
    }

    /// This core has a history: a list of moments, each an event with the states around it, from the
    /// opening with the frames that its config tells on.
    pub fn has_a_history(&self)
        ensures { HasHistory self.now.sizes.frames (as_state self.now) }
    {
        hp_laws::a_reached_state_has_a_history();
        let _ = &self.config;
    }

    /// Of one call in a history of this core, from its begin on, the steps that moved or ended it are at most so
    /// many.
    pub fn own_steps_are_few(&self)
        ensures { FewOwnSteps (as_state self.now) }
    {
        hp_laws::own_steps_are_few();
        let _ = &self.config;
    }

    /// What a map has promised in a history of this core is reserved and below the size, until a punch or a
    /// truncation took it back.
    pub fn what_is_promised_is_reserved(&self)
        ensures { KeepsPromises (as_state self.now) }
    {
        hp_laws::what_is_promised_is_reserved();
        let _ = &self.config;
    }

    /// A touch whose index was promised where it asked what is missing never answered that there is no frame.
    pub fn a_promised_touch_never_lacks_a_frame(&self)
        ensures { PromisedNeverLacks (as_state self.now) }
    {
        hp_laws::a_promised_touch_never_lacks_a_frame();
        let _ = &self.config;
    }

    /// A load or store of a mapped page whose index was promised from its begin to its end answered with the word
    /// or done, where no step of it was denied and its task wasn't killed.
    pub fn a_promised_touch_is_served(&self)
        ensures { PromisedIsServed (as_state self.now) }
    {
        hp_laws::a_promised_touch_is_served();
        let _ = &self.config;
    }

    /// A load told the last word of its page at the step that read it: that of the last store that wrote there
    /// since the page was placed, else 0.
    pub fn a_load_tells_the_last_word(&self)
        ensures { LoadsTellLastWords (as_state self.now) }
    {
        hp_laws::a_load_tells_the_last_word();
        let _ = &self.config;
    }

    /// The word with which a load ended is the last word of its page at the step that read it, a step of the same
    /// call.
    pub fn a_load_ends_with_the_last_word(&self)
        ensures { LoadsEndWithLastWords (as_state self.now) }
    {
        hp_laws::a_load_ends_with_the_last_word();
        let _ = &self.config;
    }
}
