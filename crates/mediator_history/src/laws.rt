//! Laws over the definitions of a history: what the last entry of its kind decides, what a cut ends, and what one entry
//! more adds. Their functions do nothing; their clauses are what is proved.
ghost use Rattle.std.specs.Prelude.{◌≡◌, ◌↔◌, ◌∷◌, ◌++◌, [], ℕ, false, List, IsTrue};
ghost use Rattle.policy_text.specs.Policies.{PolicyMeaning as Policy};
ghost use Rattle.event_journal.specs.declared.entry.Entry.{Entry};
ghost use Rattle.event_journal.specs.declared.entry.Entry.TheVariants.{Unsubscribe, Cut};
ghost use Rattle.mediator_history.specs.Sessions.{is_open};
ghost use Rattle.mediator_history.specs.Subscriptions.{policy_in_force, name_of, is_live, is_served};
ghost use Rattle.mediator_history.specs.LastEntries.{IsPolicyInForce, IsNamed, IsSubscribed, IsBegun, IsOpened};
ghost use Rattle.mediator_history.specs.Accepted.{accepted_at, accepted};
ghost use Rattle.mediator_history.specs.Disclosed.{given_at, disclosed};
ghost use Rattle.mediator_history.specs.Auditing.{audit_at, audit_list};

/// The policy in force after a history is that of its last edit whose text is a policy, or a policy without rules where
/// it has no such edit; and no other is in force.
pub fn last_edit_is_in_force()
    ensures { (h : List Entry) (policy : Policy) → (policy_in_force h ≡ policy)
        ↔ IsPolicyInForce h policy }
{}

/// A subscription has the name under which it began last, or a name of no octets where it never began; and it has no
/// other.
pub fn last_subscription_names()
    ensures { (sub : ℕ) (h : List Entry) (name : List ℕ) → (name_of sub h ≡ name)
        ↔ IsNamed sub h name }
{}

/// A subscription is served exactly where it began and after that neither ended nor was cut: of the entries that begin,
/// end or cut it, the last is one that begins it.
pub fn served_since_subscribed()
    ensures { (sub : ℕ) (h : List Entry) → IsTrue (is_served sub h) ↔ IsSubscribed sub h }
{}

/// A subscription is live exactly where it began and after that did not end. A cut leaves it live.
pub fn live_since_subscribed()
    ensures { (sub : ℕ) (h : List Entry) → IsTrue (is_live sub h) ↔ IsBegun sub h }
{}

/// A session is open exactly where it was opened and after that not closed.
pub fn open_since_opened()
    ensures { (session : ℕ) (h : List Entry) → IsTrue (is_open session h) ↔ IsOpened session h }
{}

/// A subscription that was cut, or that ended, is served no more; and no entry gives anything to a subscription that is
/// not served.
pub fn cut_ends_serving()
    ensures serves_no_more { (sub : ℕ) (h : List Entry)
        → (is_served sub (h ++ Cut sub ∷ []) ≡ false)
        × (is_served sub (h ++ Unsubscribe sub ∷ []) ≡ false) }
    ensures gives_nothing { (sub : ℕ) (h : List Entry) (e : Entry) → is_served sub h ≡ false
        → given_at sub h e ≡ [] }
{}

/// An entry behind a history adds, behind what the history has of them, the records that the entry brings, what it
/// gives to a subscription, and what the audit names of it. Before the first entry there is none of these. So each of
/// the three lists goes through the history in its order.
pub fn one_entry_more()
    ensures start { (sub : ℕ) → (accepted [] ≡ []) × (disclosed sub [] ≡ [])
        × (audit_list [] ≡ []) }
    ensures accepts { (h : List Entry) (e : Entry)
        → accepted (h ++ e ∷ []) ≡ accepted h ++ accepted_at h e }
    ensures discloses { (sub : ℕ) (h : List Entry) (e : Entry)
        → disclosed sub (h ++ e ∷ []) ≡ disclosed sub h ++ given_at sub h e }
    ensures audits { (h : List Entry) (e : Entry)
        → audit_list (h ++ e ∷ []) ≡ audit_list h ++ audit_at h e }
{}
